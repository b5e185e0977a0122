// What an event does to each site and to each window, for scripts and servers of any types. Nothing runs here: a contract holds a statement, and its proof is the function's.
ghost use Rattle.pages.specs.Laws.{EachWindow, HistoryLaw, Readings, TouchedOnly, ViewLaw};

// What is of a site after an event follows from what was of it and from what the event does to it.
pub fn view_law<S, R>()
    ensures { ViewLaw S R }
{}

// So it is after any number of events.
pub fn history_law<S, R>()
    ensures { HistoryLaw S R }
{}

// Another site's turn asks a site's server, speaks to a window of it, opens one, or does nothing to it.
pub fn touched_only<S, R>()
    ensures { TouchedOnly S R }
{}

// What a turn makes of every window that is there.
pub fn each_window<S, R>()
    ensures { EachWindow S R }
{}

// What a window is told next and sees of a reply; words to itself and ninth words; openings; what it finds.
pub fn readings<S, R>()
    ensures { Readings S R }
{}
