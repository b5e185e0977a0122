// Messages written line by line into a lent buffer.
ghost use Rattle.std.specs.Prelude.{◌≡◌, [], ◌++◌, decimal};
ghost use Rattle.std.specs.Option.{option_map};
ghost use Rattle.std.specs.List.{flat_map};
ghost use Rattle.addresses.specs.Written.{port_text};
ghost use Rattle.octets.specs.Buffers.{written, count};
ghost use Rattle.lines.specs.Lines.{crlf, token_line};
ghost use Rattle.lines.specs.Views.{line_text, lines_then};

use addresses::{Site, port_text};
use octets::pieces::{put_from, room_after};
use octets::small::SmallText;

// A line in pieces: what it starts with, a value, digits, and its end. Each piece may be empty.
#[derive(Clone, Copy)]
pub struct Line<'a> {
    start: &'a [u8],
    value: &'a [u8],
    digits: SmallText,
    end: &'a [u8],
}

impl<'a> Line<'a> {
    pub fn none() -> Line<'a>
        ensures { line_text result ≡ [] }
    {
        Line {
            start: b"",
            value: b"",
            digits: SmallText::empty(),
            end: b"",
        }
    }

    pub fn of(start: &'a [u8], value: &'a [u8], end: &'a [u8]) -> Line<'a>
        ensures { line_text result ≡ start.now ++ (value.now ++ end.now) }
    {
        Line {
            start,
            value,
            digits: SmallText::empty(),
            end,
        }
    }

    pub fn of_number(start: &'a [u8], n: u64, end: &'a [u8]) -> Line<'a>
        ensures { line_text result ≡ start.now ++ (decimal n ++ end.now) }
    {
        Line {
            start,
            value: b"",
            digits: SmallText::decimal(n),
            end,
        }
    }

    // The line of a token, if there is one.
    pub fn of_token(start: &'a [u8], token: Option<&'a [u8]>) -> Line<'a>
        ensures { line_text result ≡ token_line start.now (option_map (λ x. x.now) token.entry) }
    {
        // by `match`: a closure that gives a struct of references gets no proof
        match token {
            Some(t) => Line::of(start, t, b"\r\n"),
            None => Line::none(),
        }
    }

    // The site's host, and its port unless it is 443.
    pub fn of_site(start: &'a [u8], site: Site<'a>) -> Line<'a>
        ensures { line_text result ≡ start.now ++ ((site.entry.host.now ++ port_text site.entry.port) ++ crlf) }
    {
        Line {
            start,
            value: site.host,
            digits: port_text(site.port),
            end: b"\r\n",
        }
    }

    fn pieces(&'a self) -> [&'a [u8]; 4]
        ensures { flat_map (λ x. x.now) result ≡ line_text self.now }
    {
        [self.start, self.value, self.digits.as_bytes(), self.end]
    }
}

// Writes a message at the front of the buffer, its lines and then its body, if it fits; else nothing.
pub fn put_message<'a>(out: &mut [u8], lines: &'a [Line<'a>], body: &'a [u8]) -> Option<usize>
    ensures answer { result ≡ count (lines_then lines.now body.now) out.old }
    ensures after { out.new ≡ written (lines_then lines.now body.now) out.old }
{
    // Two walks: nothing is written unless all fits.
    let mut room = out.len();
    for line in lines {
        room = room_after(&line.pieces(), room)?;
    }
    room_after(&[body], room)?;
    let mut at = 0;
    for line in lines {
        at = put_from(out, at, &line.pieces())?;
    }
    put_from(out, at, &[body])
}
