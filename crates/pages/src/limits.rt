// The limits of the browser, as numbers. Functions: each carries a promise in its contract, which a const cannot.
ghost use Rattle.std.specs.Prelude.{◌≡◌};
ghost use Rattle.pages.specs.Browser.{most_windows, most_words};

// The most windows of a browser.
pub fn most_windows() -> u8
    ensures limit { result ≡ most_windows }
    ensures number { result ≡ 16 }
{
    16
}

// The most words that wait for a window.
pub fn most_words() -> u8
    ensures limit { result ≡ most_words }
    ensures number { result ≡ 8 }
{
    8
}
