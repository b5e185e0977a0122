// What is done with a server's answer.
ghost use Rattle.std.specs.Prelude.{◌≡◌, ◌<◌, ◌≤◌, true, [], ◌∷◌, ◌++◌, length, Some, None};
ghost use Rattle.answers.specs.declared.Kind.TheVariants.{Asked, Page};
ghost use Rattle.answers.specs.Answers.{read_answer};
ghost use Rattle.answers.specs.Views.{content_of};
ghost use Rattle.bounded.specs.Numbers.{number_of};
ghost use Rattle.bounded.specs.Texts.{text_of};
ghost use Rattle.octets.specs.Answers.{Read};
ghost use Rattle.lines.specs.Lines.{token_fits};
ghost use Rattle.lines.specs.Views.{fault_number};
ghost use Rattle.pages.specs.Browser.{replied_to, with_reply, with_windows};
ghost use Rattle.scripts.specs.Page.{page_in};
ghost use Rattle.storage.specs.Storage.{tokens_of};
ghost use Rattle.windows.specs.Scripts.{steps_from};
ghost use Rattle.windows.specs.Windows.{opened as window_with};
ghost use Rattle.browser.specs.Ends.{finished, server_outs_of};
ghost use Rattle.browser.specs.Halves.{server_outs_to, unreadable_number, steps_fault, read_fault, answer_fault};
ghost use Rattle.browser.specs.Needs.{ready_for};
ghost use Rattle.browser.specs.Parts.{part_of, sites_in, scripts_in};
ghost use Rattle.browser.specs.Values.{need_of, outs_of};
ghost use Rattle.browser.specs.Wire.{reply_from, reply_of};

use super::Browser;
use crate::fitted;
use crate::values::{Need, Out, What};
use answers::{Kind, Response, read_answer};
use bounded::site::SiteNumber;
use lines::MessageFault;
use machine::Told;
use scripts::Unreadable;
use windows::{Window, script_of};

// What came of an answer: what the server let out, and the number of the fault.
#[derive(Clone, Copy)]
pub(crate) struct Replied {
    pub(crate) out: Option<Out>,
    pub(crate) fault: u8,
}

// The numbers go into the book's lines as they are.
fn fault_number(e: MessageFault) -> u8
    ensures { result ≡ fault_number e }
{
    match e {
        MessageFault::Unreadable => 6,
        MessageFault::Value => 7,
    }
}

fn page_fault(unreadable: Option<Unreadable>) -> u8
    ensures { result ≡ unreadable_number unreadable }
{
    unreadable.map_or(0, |fault| fault.number())
}

impl Browser {
    // The asked site's token is the one that the answer sets, if it sets one.
    fn take(&mut self, need: &Need, a: Response<'_>)
        requires { token_fits (content_of a).token ≡ true }
        ensures part { part_of self.new ≡ with_reply (need_of (tokens_of self.old.tokens) need.now) (reply_from (sites_in self.old) (Read (content_of a.entry))) (part_of self.old).windows (part_of self.old) }
        ensures rest { (self.new.windows ≡ self.old.windows) × (self.new.table ≡ self.old.table) }
    {
        if let Some(bytes) = a.token {
            self.tokens.set(need.site, &fitted::text(bytes));
        }
    }

    // An answer that can be read: its token is taken, and the page is told it, if it may see it.
    fn told(&mut self, window: usize, need: &Need, from: SiteNumber, a: Response<'_>) -> Option<Out>
        requires fits { token_fits (content_of a).token ≡ true }
        requires short { length (content_of a).body ≤ 4096 }
        ensures part { part_of self.new ≡ replied_to (scripts_in self.old) window (Some (number_of from)) (need_of (tokens_of self.old.tokens) need.now) (reply_from (sites_in self.old) (Read (content_of a.entry))) (part_of self.old) }
        ensures out { outs_of result ≡ server_outs_to (Some (number_of from)) (number_of need.now.site) (reply_from (sites_in self.old) (Read (content_of a.entry))) }
        ensures rest { self.new.table ≡ self.old.table }
    {
        let lets = a.allows(self.site(from));
        let own = need.site == from;
        let site = u32::from(need.site.number());
        self.take(need, a);
        if !own && !lets {
            self.windows.tell(window, Told::Barred { site }, &[]);
            return None;
        }
        let code = u32::from(a.code);
        self.windows
            .tell(window, Told::Answer { site, code }, a.body);
        if own {
            return None;
        }
        let what = What::Let {
            code: a.code,
            body: fitted::text(a.body),
        };
        Some(Out {
            from: need.site,
            to: from,
            what,
        })
    }

    // The answer to an asking of a window's page.
    fn answered(&mut self, window: usize, need: &Need, from: SiteNumber, bytes: &[u8]) -> Replied
        ensures part { part_of self.new ≡ replied_to (scripts_in self.old) window (Some (number_of from)) (need_of (tokens_of self.old.tokens) need.now) (reply_of (sites_in self.old) Asked bytes.now) (part_of self.old) }
        ensures out { outs_of result.out ≡ server_outs_to (Some (number_of from)) (number_of need.now.site) (reply_of (sites_in self.old) Asked bytes.now) }
        ensures fault { result.fault ≡ read_fault (Some (number_of from)) (read_answer Asked bytes.now) }
        ensures rest { self.new.table ≡ self.old.table }
    {
        match read_answer(Kind::Asked, bytes) {
            Ok(a) => Replied {
                out: self.told(window, need, from, a),
                fault: 0,
            },
            Err(e) => {
                let site = u32::from(need.site.number());
                self.windows.tell(window, Told::Barred { site }, &[]);
                Replied {
                    out: None,
                    fault: fault_number(e),
                }
            }
        }
    }

    // A window more, with this page: one that can't be read gives it a script that does nothing, and has a number.
    fn add(&mut self, need: &Need, page: &[u8]) -> u8
        requires { length (part_of self.old).windows < 16 }
        ensures part { part_of self.new ≡ with_windows ((part_of self.old).windows ++ (window_with (number_of need.now.site) (text_of need.now.path) (steps_from (Some page.now)) ∷ [])) (part_of self.old) }
        ensures fault { result ≡ steps_fault (page_in page.now) }
        ensures rest { self.new.table ≡ self.old.table }
    {
        let (script, unreadable) = script_of(Some(page));
        let window = Window::new(need.site, &need.path, script);
        self.windows.push(window);
        page_fault(unreadable)
    }

    // The page of a window that is opened, and the number of the fault. An answer that can't be read has none, which is like
    // an empty one.
    fn opened(&mut self, need: &Need, bytes: &[u8]) -> u8
        requires { length (part_of self.old).windows < 16 }
        ensures part { part_of self.new ≡ replied_to (scripts_in self.old) 0 None (need_of (tokens_of self.old.tokens) need.now) (reply_of (sites_in self.old) Page bytes.now) (part_of self.old) }
        ensures fault { result ≡ read_fault None (read_answer Page bytes.now) }
        ensures rest { self.new.table ≡ self.old.table }
    {
        match read_answer(Kind::Page, bytes) {
            Ok(a) => {
                self.take(need, a);
                self.add(need, a.body)
            }
            Err(e) => {
                let _ = self.add(need, &[]);
                fault_number(e)
            }
        }
    }

    // An answer comes: to an asking of the window's page, or to an opening.
    pub(crate) fn reply(&mut self, window: usize, need: &Need, bytes: &[u8]) -> Replied
        requires { ready_for (length (part_of self.old).windows) window need.now.from ≡ true }
        ensures part { part_of self.new ≡ finished (sites_in self.old) window (Some (need_of (tokens_of self.old.tokens) need.now)) bytes.now (part_of self.old) }
        ensures out { outs_of result.out ≡ server_outs_of (sites_in self.old) (Some (need_of (tokens_of self.old.tokens) need.now)) bytes.now }
        ensures fault { result.fault ≡ answer_fault (Some (need_of (tokens_of self.old.tokens) need.now)) bytes.now }
        ensures rest { self.new.table ≡ self.old.table }
    {
        match need.from {
            Some(from) => self.answered(window, need, from, bytes),
            None => Replied {
                out: None,
                fault: self.opened(need, bytes),
            },
        }
    }
}
