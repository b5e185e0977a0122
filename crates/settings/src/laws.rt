// What holds of all settings.
ghost use Rattle.std.specs.Prelude.{◌≡◌, true};
ghost use Rattle.settings.specs.Written.{SettingsReadBack};

// What is written of settings that were read is read as the same settings.
pub fn settings_read_back() -> bool
    ensures { (SettingsReadBack) × (result ≡ true) }
{
    true
}
