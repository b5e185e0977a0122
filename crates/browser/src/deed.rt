// What a page does in its turn, with its bytes by value: the machine's own acts name places in the window's memory, and the
// window is part of the browser that the deed changes.
ghost use Rattle.std.specs.Prelude.{◌≡◌, ◌≤◌};
ghost use Rattle.machine.specs.Script.{done_in};
ghost use Rattle.windows.specs.Scripts.{act_by, InLimits};
ghost use Rattle.windows.specs.Windows.{window_of};
ghost use Rattle.browser.specs.Deeds.{deed_of};

use crate::fitted;
use bounded::site::SiteNumber;
use bounded::text::Text;
use machine::{Act, Outcome};
use windows::Window;

#[derive(Clone, Copy)]
pub(crate) enum Deed {
    Nothing,
    Ask {
        to: SiteNumber,
        path: Text<255>,
        body: Text<1024>,
    },
    Say {
        window: u32,
        to: SiteNumber,
        what: Text<1024>,
    },
    Keep {
        what: Text<4096>,
    },
    Look,
    Open {
        to: SiteNumber,
        path: Text<255>,
    },
}

// What came of the window's run, where so many sites are named.
pub(crate) fn deed_of(window: &Window, outcome: Outcome, sites: u32) -> Deed
    requires few { sites ≤ 16 }
    requires limits { InLimits sites (act_by (done_in outcome (window_of window.now).state.memory)) }
    ensures { deed_of result ≡ act_by (done_in outcome (window_of window.now).state.memory) }
{
    let Outcome::Did(act) = outcome else {
        return Deed::Nothing;
    };
    let own = window.site();
    match act {
        Act::Nothing => Deed::Nothing,
        Act::Ask { site, path, body } => Deed::Ask {
            to: fitted::number(site, own),
            path: fitted::text(window.bytes(path)),
            body: fitted::text(window.bytes(body)),
        },
        Act::Say {
            window: to_window,
            site,
            bytes,
        } => Deed::Say {
            window: to_window,
            to: fitted::number(site, own),
            what: fitted::text(window.bytes(bytes)),
        },
        Act::Keep { bytes } => Deed::Keep {
            what: fitted::text(window.bytes(bytes)),
        },
        Act::Look => Deed::Look,
        Act::Open { site, path } => Deed::Open {
            to: fitted::number(site, own),
            path: fitted::text(window.bytes(path)),
        },
    }
}
