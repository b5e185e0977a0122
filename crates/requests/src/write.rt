// Requests written into a lent buffer.
ghost use Rattle.std.specs.Prelude.{◌≡◌, take, IfSome, if◌then◌else◌, None};
ghost use Rattle.std.specs.Option.{option_map};
ghost use Rattle.octets.specs.Answers.{Read};
ghost use Rattle.octets.specs.Buffers.{written, count};
ghost use Rattle.addresses.specs.Views.{site_of};
ghost use Rattle.lines.specs.Views.{line_text};
ghost use Rattle.requests.specs.Requests.{read_request};
ghost use Rattle.requests.specs.Views.{asking_of};
ghost use Rattle.requests.specs.Written.{origin_line, request_text, origin_fits, can_write};

use crate::Request;
use addresses::{Site, is_path, is_site};
use lines::token_fits;
use lines::written::{Line, put_message};

fn origin_line(origin: Option<Site<'_>>) -> Line<'_>
    ensures { line_text result ≡ origin_line (option_map site_of origin.entry) }
{
    match origin {
        None => Line::none(),
        Some(site) => Line::of_site(b"origin: https://", site),
    }
}

fn origin_fits(origin: Option<Site<'_>>) -> bool
    ensures { result ≡ origin_fits (option_map site_of origin.entry) }
{
    origin.is_none_or(is_site)
}

fn can_write(q: Request<'_>) -> bool
    ensures { result ≡ can_write (asking_of q.entry) }
{
    is_site(q.site)
        && is_path(q.path)
        && origin_fits(q.origin)
        && token_fits(q.token)
        && q.body.len() <= 1024
}

// Writes a request at the front of the buffer, if each part is within its rules and all fits; else nothing.
pub fn write_request(out: &mut [u8], q: Request<'_>) -> Option<usize>
    ensures answer { result ≡ (if can_write (asking_of q.entry) then count (request_text (asking_of q.entry)) out.old else None) }
    ensures after { out.new ≡ (if can_write (asking_of q.entry) then written (request_text (asking_of q.entry)) out.old else out.old) }
    ensures back { IfSome result (λ n. read_request (take n out.new) ≡ Read (asking_of q.entry)) }
{
    if !can_write(q) {
        return None;
    }
    let first = Line::of(b"POST ", q.path, b" HTTP/1.1\r\n");
    let host = Line::of_site(b"host: ", q.site);
    let origin = origin_line(q.origin);
    let token = Line::of_token(b"cookie: ", q.token);
    let length = Line::of_number(b"content-length: ", q.body.len() as u64, b"\r\n\r\n");
    put_message(out, &[first, host, origin, token, length], q.body)
}
