// What code must do to be the browser that the promise speaks of.
ghost use Rattle.pages.specs.Code.{CodeStands};

// The definitions of a turn in two halves are such code, for any sites.
pub fn code_stands<S, R>()
    ensures { CodeStands S R }
{}
