// What an act does that needs no server, and what it needs of one.
ghost use Rattle.std.specs.Prelude.{◌≡◌, ℕ, ◌<◌, true, length};
ghost use Rattle.std.specs.Option.{option_map};
ghost use Rattle.bounded.specs.Numbers.{number_of};
ghost use Rattle.bounded.specs.Texts.{text_of};
ghost use Rattle.storage.specs.Storage.{tokens_of};
ghost use Rattle.pages.specs.Browser.{acted, needs_by, page_needed};
ghost use Rattle.browser.specs.Deeds.{deed_of};
ghost use Rattle.browser.specs.Halves.{page_outs};
ghost use Rattle.browser.specs.Needs.{is_ready};
ghost use Rattle.browser.specs.Parts.{part_of};
ghost use Rattle.browser.specs.Values.{need_of, outs_of};

use super::Browser;
use crate::deed::Deed;
use crate::values::{Need, Out, What};
use bounded::site::SiteNumber;
use bounded::text::Text;
use machine::Told;
use windows::Word;

impl Browser {
    // The page of a window more is asked for in nobody's name, where there is room for the window.
    pub(crate) fn page_needed(&self, site: SiteNumber, path: Text<255>) -> Option<Need>
        ensures need { option_map (need_of (tokens_of self.now.tokens)) result ≡ page_needed (number_of site) (text_of path) (part_of self.now) }
        ensures ready { (window : ℕ) → is_ready (length (part_of self.now).windows) window result ≡ true }
    {
        let body = Text::empty();
        self.windows.has_room().then_some(Need {
            site,
            from: None,
            path,
            body,
        })
    }

    // Does what a page of a site does in its window, but for what a server has to give first.
    pub(crate) fn act(&mut self, window: usize, site: SiteNumber, deed: &Deed) -> Option<Need>
        requires here { window < length (part_of self.old).windows }
        ensures part { part_of self.new ≡ acted window (number_of site) (deed_of deed.now) (part_of self.old) }
        ensures need { option_map (need_of (tokens_of self.new.tokens)) result ≡ needs_by (number_of site) (deed_of deed.now) (part_of self.old) }
        ensures ready { is_ready (length (part_of self.new).windows) window result ≡ true }
        ensures rest { self.new.table ≡ self.old.table }
    {
        match *deed {
            Deed::Nothing => None,
            Deed::Ask { to, path, body } => Some(Need {
                site: to,
                from: Some(site),
                path,
                body,
            }),
            Deed::Say {
                window: other,
                to,
                what,
            } => {
                let word = Word {
                    from: site,
                    text: what,
                };
                self.windows.hear(other, to, &word);
                None
            }
            Deed::Keep { what } => {
                let _ = self.stores.keep(site, what.as_slice());
                None
            }
            Deed::Look => {
                self.windows
                    .tell(window, Told::Kept, self.stores.look(site));
                None
            }
            Deed::Open { to, path } => self.page_needed(to, path),
        }
    }

    // What the page lets out.
    pub(crate) fn page_out(&self, site: SiteNumber, deed: &Deed) -> Option<Out>
        ensures { outs_of result ≡ page_outs (part_of self.now).windows (number_of site) (deed_of deed.now) }
    {
        let out = |to, what| Out {
            from: site,
            to,
            what,
        };
        match *deed {
            Deed::Ask { to, path, body } => {
                (to != site).then_some(out(to, What::Asked { path, body }))
            }
            Deed::Say { window, to, what } => (to != site
                && self.windows.is_of(window, to)).then_some(out(to, What::Said { window, what })),
            Deed::Open { to, path } => Some(out(to, What::Opened { path })),
            _ => None,
        }
    }
}
