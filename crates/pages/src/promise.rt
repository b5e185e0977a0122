// The promise, for scripts and servers of which nothing is known. Each function's contract is a theorem: without its proof the crate is refused.
ghost use Rattle.pages.specs.Promise.{NothingElse, FromSettings, AsIfNot, OneSite};

// Two runs that are alike but for a group of sites stay so for all others, as long as the group lets out the same in both.
pub fn nothing_else<S, R>()
    ensures { NothingElse S R }
{}

// The same from the settings on.
pub fn from_settings<S, R>()
    ensures { FromSettings S R }
{}

// A group that lets nothing out might as well do nothing.
pub fn as_if_not<S, R>()
    ensures { AsIfNot S R }
{}

// A group of one site.
pub fn one_site<S, R>()
    ensures { OneSite S R }
{}
