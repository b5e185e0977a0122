// Answers written into a lent buffer.
ghost use Rattle.std.specs.Prelude.{◌≡◌, ◌≤◌, take, IfSome, if◌then◌else◌, None};
ghost use Rattle.std.specs.Option.{option_map};
ghost use Rattle.octets.specs.Answers.{Read};
ghost use Rattle.octets.specs.Buffers.{written, count};
ghost use Rattle.lines.specs.Views.{line_text};
ghost use Rattle.answers.specs.Answers.{read_answer};
ghost use Rattle.answers.specs.Views.{allows_by, content_of};
ghost use Rattle.answers.specs.Written.{three_digits, allowed_line, answer_text, allows_fits, can_write};

use crate::{Allowed, Kind, Response, limit_of};
use addresses::is_site;
use lines::token_fits;
use lines::written::{Line, put_message};

// By hand: a number is printed without the zeros that a code below 100 has in front.
fn three_digits(n: u16) -> [u8; 3]
    requires { n ≤ 999 }
    ensures { result ≡ three_digits n }
{
    [
        b'0' + (n / 100) as u8,
        b'0' + (n / 10 % 10) as u8,
        b'0' + (n % 10) as u8,
    ]
}

fn allowed_line(allowed: Option<Allowed<'_>>) -> Line<'_>
    ensures { line_text result ≡ allowed_line (option_map allows_by allowed.entry) }
{
    // in two steps: one `match` over the three cases gets no proof
    let Some(allowed) = allowed else {
        return Line::none();
    };
    match allowed {
        Allowed::Everybody => Line::of(b"access-control-allow-origin: ", b"*", b"\r\n"),
        Allowed::Site(site) => Line::of_site(b"access-control-allow-origin: https://", site),
    }
}

fn allowed_fits(allowed: Option<Allowed<'_>>) -> bool
    ensures { result ≡ allows_fits (option_map allows_by allowed.entry) }
{
    match allowed {
        None | Some(Allowed::Everybody) => true,
        Some(Allowed::Site(site)) => is_site(site),
    }
}

fn can_write(kind: Kind, a: Response<'_>) -> bool
    ensures { result ≡ can_write kind (content_of a.entry) }
{
    a.code <= 999
        && token_fits(a.token)
        && allowed_fits(a.allowed)
        && a.body.len() as u64 <= limit_of(kind)
}

// Writes an answer at the front of the buffer, if each part is within its rules and all fits; else nothing.
pub fn write_answer(out: &mut [u8], kind: Kind, a: Response<'_>) -> Option<usize>
    ensures answer { result ≡ (if can_write kind (content_of a.entry) then count (answer_text (content_of a.entry)) out.old else None) }
    ensures after { out.new ≡ (if can_write kind (content_of a.entry) then written (answer_text (content_of a.entry)) out.old else out.old) }
    ensures back { IfSome result (λ n. read_answer kind (take n out.new) ≡ Read (content_of a.entry)) }
{
    if !can_write(kind, a) {
        return None;
    }
    let code = three_digits(a.code);
    let status = Line::of(b"HTTP/1.1 ", &code, b" \r\n");
    let token = Line::of_token(b"set-cookie: ", a.token);
    let allowed = allowed_line(a.allowed);
    let length = Line::of_number(b"content-length: ", a.body.len() as u64, b"\r\n\r\n");
    put_message(out, &[status, token, allowed, length], a.body)
}
