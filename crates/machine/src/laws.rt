// Laws of turns, as the contract of a function.
ghost use Rattle.std.specs.Prelude.{◌≡◌, true};
ghost use Rattle.machine.specs.Laws.{Tells, Resumes, Ends};

// A script is told what is so; a turn that is cut and goes on is the uncut turn; a script that has ended does nothing.
pub fn laws_hold() -> bool
    ensures tells { Tells }
    ensures resumes { Resumes }
    ensures ends { Ends }
    ensures value { result ≡ true }
{
    true
}
