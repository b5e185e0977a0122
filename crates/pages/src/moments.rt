// What is let out in a turn, and what holds at every moment of a run, for scripts and servers with any states.
ghost use Rattle.pages.specs.Laws.{RoundLaw, ElseNothing, KeptLast, LetOutOnly, Limits, OnlyNamed, ToldIsLetOut, WordsTruly};

// Only four kinds of things are let out, and only in a turn of a window that is there.
pub fn let_out_only<S, R>()
    ensures only { LetOutOnly S R }
    ensures otherwise { ElseNothing S R }
{}

// A page that asks another site's server is told what that site let out, and nothing else.
pub fn told_is_let_out<S, R>()
    ensures { ToldIsLetOut S R }
{}

// A site's store has what its windows kept last.
pub fn kept_last<S, R>()
    ensures { KeptLast S R }
{}

// The words that wait for a window are the last of those that were said to it, each under the speaker's site.
pub fn words_are_true<S, R>()
    ensures { WordsTruly S R }
{}

// There are never more windows than 16, nor do more words than 8 wait for one.
pub fn limits_hold<S, R>()
    ensures { Limits S R }
{}

// Every window is of a named site, and no other site's server is asked, if the settings open windows of such sites only.
pub fn only_named<S, R>()
    ensures { OnlyNamed S R }
{}

// In a round each window that is there when it begins has its turn, by number.
pub fn rounds_hold<S, R>()
    ensures { RoundLaw S R }
{}
