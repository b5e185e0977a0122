// Settings: the sites by number, the windows to open, and the turns.
#![tactic(auto)]

ghost use Rattle.std.specs.Prelude.{◌≡◌, ◌+◌, ◌^◌, ◌<◌, true, length, drop, if◌then◌else◌, Some, None, Err, OnOk, OnErr, is_ok, nat_le};
ghost use Rattle.std.specs.List.{slice_get};
ghost use Rattle.settings.specs.Lines.{lines};
ghost use Rattle.settings.specs.Settings.{place, number_of, named, added, few, no_settings, turns_of, turns_from, read_settings};
ghost use Rattle.settings.specs.declared.Fault.TheVariants.{TooMany};
ghost use Rattle.settings.specs.Heads.{head_of};
ghost use Rattle.settings.specs.Views.{sites_in, settings_of, checked_of, outcome_of};
ghost use Rattle.addresses.specs.Views.{site_of};

use crate::lines::{Head, TurnLine, next_head, next_turn};
use addresses::Site;
use bounded::fixed::FixedVec;

pub mod laws;
pub mod lines;
pub mod write;

// A window to open: the number of its site, and the path of its page.
#[derive(Clone, Copy)]
pub struct Open<'a> {
    pub site: usize,
    pub path: &'a [u8],
}

// Lines of turns, read one by one.
#[derive(Clone, Copy)]
pub struct Turns<'a> {
    text: &'a [u8],
}

// What the settings say: sites by their numbers, windows to open in their order, and turns.
#[derive(Clone, Copy)]
pub struct Settings<'a> {
    pub sites: FixedVec<Site<'a>, 16>,
    pub opens: FixedVec<Open<'a>, 16>,
    pub turns: Turns<'a>,
}

#[derive(Clone, Copy, PartialEq, Eq, Debug)]
pub enum Fault {
    // a line that can't be read, or one that names a site after a turn
    Unreadable,
    // more than 16 sites, or more than 16 windows
    TooMany,
}

// Why settings are not read: the fault, and the line, counted from 1.
#[derive(Clone, Copy, PartialEq, Eq, Debug)]
pub struct Refusal {
    pub fault: Fault,
    pub line: usize,
}

// The number of a site, if it has one.
fn number_of(sites: &FixedVec<Site<'_>, 16>, site: Site<'_>) -> Option<usize>
    ensures { result ≡ number_of (site_of site.entry) (sites_in sites.now) }
{
    sites.as_slice().iter().position(|other| site == *other)
}

// Names a site: its number, or none if it would be the 17th.
fn name_site<'a>(sites: &mut FixedVec<Site<'a>, 16>, site: Site<'a>) -> Option<usize>
    ensures is { result ≡ (if nat_le (length (named (site_of site.entry) (sites_in sites.old))) 16 then Some (place (site_of site.entry) (sites_in sites.old)) else None) }
    ensures left { sites_in sites.new ≡ (if nat_le (length (named (site_of site.entry) (sites_in sites.old))) 16 then named (site_of site.entry) (sites_in sites.old) else sites_in sites.old) }
{
    if let Some(n) = number_of(sites, site) {
        return Some(n);
    }
    sites.push(site)
}

impl<'a> Settings<'a> {
    fn empty() -> Settings<'a>
        ensures { settings_of result ≡ no_settings }
    {
        let site: Site<'a> = Site { host: b"", port: 0 };
        let open: Open<'a> = Open { site: 0, path: b"" };
        Settings {
            sites: FixedVec::empty(site),
            opens: FixedVec::empty(open),
            turns: Turns { text: b"" },
        }
    }

    // Takes in a line that names a site, unless its site or its window is one too many. The line's number is for that
    // refusal.
    fn add(&mut self, head: Head<'a>, line: usize) -> Result<(), Refusal>
        ensures is { is_ok result ≡ few (added (settings_of self.old) (head_of head.entry)) }
        ensures left { OnOk result (settings_of self.new ≡ added (settings_of self.old) (head_of head.entry)) }
        ensures full { OnErr result (result ≡ Err (record { fault = TooMany; line = line })) }
    {
        let full = Refusal {
            fault: Fault::TooMany,
            line,
        };
        let (Head::Site(address) | Head::Open(address)) = head;
        let site = Site {
            host: address.host,
            port: address.port,
        };
        let n = name_site(&mut self.sites, site).ok_or(full)?;
        if let Head::Open(address) = head {
            let open = Open {
                site: n,
                path: address.path,
            };
            self.opens.push(open).ok_or(full)?;
        }
        Ok(())
    }
}

// Are all lines lines of turns? So many lines came before.
fn check_turns(text: &[u8], before: usize) -> Result<(), Refusal>
    requires { before + length text.now < 2 ^ 64 }
    ensures { checked_of result (turns_of (lines text.now)) ≡ turns_from (before + 1) (lines text.now) }
{
    // A count by hand, since it goes on where that of the sites' lines has ended.
    let mut rest = text;
    let mut line = before;
    while let Some((_, next)) = next_turn(rest) {
        rest = next;
        line += 1;
    }
    if rest.is_empty() {
        return Ok(());
    }
    Err(Refusal {
        fault: Fault::Unreadable,
        line: line + 1,
    })
}

// Reads settings to their end or to the first fault.
pub fn read_settings(text: &[u8]) -> Result<Settings<'_>, Refusal>
    ensures { outcome_of result ≡ read_settings text.now }
{
    let mut settings = Settings::empty();
    // A count by hand, since that of the lines of turns goes on from it.
    let mut rest = text;
    let mut line = 0;
    while let Some((head, next)) = next_head(rest) {
        line += 1;
        settings.add(head, line)?;
        rest = next;
    }
    check_turns(rest, line)?;
    Ok(Settings {
        sites: settings.sites,
        opens: settings.opens,
        turns: Turns { text: rest },
    })
}

impl<'a> Turns<'a> {
    // The next line of turns, which is then gone.
    pub fn next(&mut self) -> Option<TurnLine>
        ensures is { result ≡ slice_get (turns_of (lines self.old.text.now)) 0 }
        ensures left { turns_of (lines self.new.text.now) ≡ drop 1 (turns_of (lines self.old.text.now)) }
    {
        let (turn, rest) = next_turn(self.text)?;
        self.text = rest;
        Some(turn)
    }
}
