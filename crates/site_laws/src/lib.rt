// What holds of the sites on bytes: pages run by the machine, answers and requests read as texts, any servers at all. Each
// function's contract is a theorem: without its proof the crate is refused.
#![tactic(auto)]

pub mod carried;

ghost use Rattle.site_laws.specs.Laws.{BarredAlike, BrowserIsCode, PromiseOnBytes, RequestsFit, ToldWhoAsks, WordsOnBytes};

// The browser's own definitions of a turn are the promise's browser, for every table and any servers.
pub fn browser_is_code<R>()
    ensures { BrowserIsCode R }
{}

// Of a group of sites others learn what it lets out and nothing else, from the settings' text on.
pub fn promise_on_bytes<R>()
    ensures { PromiseOnBytes R }
{}

// A page is told the same whatever answer came that it may not see: barred, failed or unreadable.
pub fn barred_told_alike()
    ensures { BarredAlike }
{}

// No window is ever told a word under a site that did not say it.
pub fn words_on_bytes<R>()
    ensures { WordsOnBytes R }
{}

// A server that reads a request finds who asks, by host and port, and nobody where a page is opened.
pub fn told_who_asks()
    ensures { ToldWhoAsks }
{}

// No request is longer than 4,096 bytes.
pub fn requests_fit()
    ensures { RequestsFit }
{}
