// The answer reader for programs in other languages, which compare and time it.
#![tactic(auto)]

ghost use Rattle.std.specs.Prelude.{◌≡◌};
ghost use Rattle.std.specs.Option.{option_map};
ghost use Rattle.answers.specs.Answers.{read_answer};
ghost use Rattle.answers.specs.Views.{allows_by};
ghost use Rattle.answers.specs.declared.Kind.TheVariants.{Page};
ghost use Rattle.answers_c.specs.Summary.{token_number, allowed_number, summary};

use answers::{Allowed, Kind, read_answer};
use lines::MessageFault;

// Numbers, since C reads them: 1 and the length of the token, or 0 for none.
fn token_number(token: Option<&[u8]>) -> u64
    ensures { result ≡ token_number (option_map (λ x. x.now) token.entry) }
{
    token.map_or(0, |t| 1 + (t.len() % 128) as u64)
}

// By name: a From would need one of its two types to be of this crate.
fn allowed_number(allowed: Option<Allowed<'_>>) -> u64
    ensures { result ≡ allowed_number (option_map allows_by allowed.entry) }
{
    match allowed {
        None => 0,
        Some(Allowed::Everybody) => 1,
        Some(Allowed::Site(_)) => 2,
    }
}

// Reads an answer by the limit of a page.
#[unsafe(no_mangle)]
pub extern "C" fn answer_summary(s: &[u8]) -> u64
    ensures { result ≡ summary (read_answer Page s.now) }
{
    match read_answer(Kind::Page, s) {
        Ok(a) => 16
            + a.code as u64 * 16777216 * 1024
            + (a.body.len() % 65536) as u64 * 1024
            + token_number(a.token) * 4
            + allowed_number(a.allowed),
        Err(MessageFault::Unreadable) => 6,
        Err(MessageFault::Value) => 7,
    }
}
