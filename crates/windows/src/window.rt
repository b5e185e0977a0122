// A window, changed in place or by value.
ghost use Rattle.std.specs.Prelude.{◌≡◌};
ghost use Rattle.machine.specs.Limits.{part};
ghost use Rattle.machine.specs.Script.{done_in};
ghost use Rattle.bounded.specs.Texts.{text_of};
ghost use Rattle.bounded.specs.Numbers.{number_of};
ghost use Rattle.scripts.specs.Scripts.{steps_of};
ghost use Rattle.pages.specs.Browser.{hears as hearing, told_now, act_of, stepped};
ghost use Rattle.windows.specs.Queues.{word_of};
ghost use Rattle.windows.specs.Scripts.{act_by, by_machine, outcome_in, InLimits};
ghost use Rattle.windows.specs.Windows.{window_of, opened, tells as telling};

use crate::process::Process;
use crate::queue::{Queue, Word};
use bounded::site::SiteNumber;
use bounded::text::Text;
use machine::{Outcome, Span, Told};
use scripts::Script;

mod same;

// A window is of one site for ever. It has its page's script, what it is to be told of its own doing with the bytes
// that go with it, and the words that wait for it.
#[derive(Clone, Copy)]
pub struct Window {
    site: SiteNumber,
    process: Process,
    own: Told,
    bytes: Text<4096>,
    queue: Queue,
}

impl Window {
    // A window whose page has begun.
    pub fn new(site: SiteNumber, path: &Text<255>, script: Script) -> Window
        ensures { window_of result ≡ opened (number_of site) (text_of path.now) (steps_of script) }
    {
        let filler = Word {
            from: site,
            text: Text::empty(),
        };
        let window = Window {
            site,
            process: Process::new(script),
            own: Told::Silence,
            bytes: Text::empty(),
            queue: Queue::empty(filler),
        };
        window.owns(Told::Begun, path.as_slice())
    }

    pub fn site(&self) -> SiteNumber
        ensures { number_of result ≡ (window_of self.now).site }
    {
        self.site
    }

    // The part of the script's memory that a span names, as far as it lies in the memory.
    pub fn bytes(&self, span: Span) -> &[u8]
        ensures { result.now ≡ part span (window_of self.now).state.memory }
    {
        self.process.bytes(span)
    }

    // A word that is said to a window of the named site. One of another site does not hear it, nor does one for which
    // eight words wait.
    pub fn hear(&mut self, named: u32, word: &Word)
        ensures { window_of self.new ≡ hearing named (word_of word.now) (window_of self.old) }
    {
        if u32::from(self.site.number()) == named {
            self.queue.push(word);
        }
    }

    // The window is to be told of its own doing, unless the bytes are more than 4,096.
    pub fn tell(&mut self, told: Told, bytes: &[u8])
        ensures { window_of self.new ≡ telling told bytes.now (window_of self.old) }
    {
        if let Some(text) = Text::new(bytes) {
            self.own = told;
            self.bytes = text;
        }
    }

    // The window's turn, where so many sites are named: its script is told what comes of the window's own doing, else
    // the oldest word, else nothing. That is taken away, whether the script waits for it or not.
    pub fn step(&mut self, sites: u32) -> Outcome
        ensures outcome { result ≡ outcome_in sites (window_of self.old).state (told_now (window_of self.old)) }
        ensures window { window_of self.new ≡ stepped (by_machine sites) (window_of self.old) }
        ensures act { act_by (done_in result (window_of self.new).state.memory) ≡ act_of (by_machine sites) (window_of self.old) }
        ensures limits { InLimits sites (act_by (done_in result (window_of self.new).state.memory)) }
    {
        match self.own {
            Told::Silence => match self.queue.pop() {
                Some(word) => {
                    let site = u32::from(word.from.number());
                    let told = Told::Heard { site };
                    self.process.turn(sites, told, word.text.as_slice())
                }
                None => self.process.turn(sites, Told::Silence, &[]),
            },
            own => {
                self.own = Told::Silence;
                self.process.turn(sites, own, self.bytes.as_slice())
            }
        }
    }

    // The same by value.
    pub fn hears(mut self, named: u32, word: &Word) -> Window
        ensures { window_of result ≡ hearing named (word_of word.now) (window_of self) }
    {
        self.hear(named, word);
        self
    }

    pub fn owns(mut self, told: Told, bytes: &[u8]) -> Window
        ensures { window_of result ≡ telling told bytes.now (window_of self) }
    {
        self.tell(told, bytes);
        self
    }
}
