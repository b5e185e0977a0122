// Which acts are done: lengths, paths and numbers of sites.
ghost use Rattle.std.specs.Prelude.{◌≡◌, length};
ghost use Rattle.addresses.specs.Address.{path_ok};
ghost use Rattle.machine.specs.Limits.{part, allowed, Inside, Within};

use crate::{Act, Span};
use addresses::is_path;

fn names_path(span: Span, memory: &[u8]) -> bool
    requires { Inside span (length memory.now) }
    ensures { result ≡ path_ok (part span memory.now) }
{
    let from = span.from as usize;
    is_path(&memory[from..from + span.len as usize])
}

// Whether an act is done, where so many sites are named.
pub(crate) fn allows(act: Act, sites: u32, memory: &[u8]) -> bool
    requires { Within act (length memory.now) }
    ensures { result ≡ allowed act sites memory.now }
{
    match act {
        Act::Nothing | Act::Look => true,
        Act::Ask { site, path, body } => {
            site < sites && names_path(path, memory) && body.len <= 1024
        }
        Act::Say {
            window: _,
            site,
            bytes,
        } => site < sites && bytes.len <= 1024,
        Act::Keep { bytes } => bytes.len <= 4096,
        Act::Open { site, path } => site < sites && names_path(path, memory),
    }
}
