// The line of a step.
ghost use Rattle.std.specs.Prelude.{◌≡◌, [], ◌∷◌, drop};
ghost use Rattle.octets.specs.Buffers.{written_from, count_from};
ghost use Rattle.disassembler.specs.Lines.{call_name, name_by, name_of, mark_of, digits_of, parts_then, slot, slot_fits, tail_shown, tail_fits, fits, plain_then, raw_then, line_then, row_in};

use octets::pieces::put_from;
use octets::small::SmallText;
use script_lines::{Form, Row, Tail, form_of};

// An operand, as it is written.
#[derive(Clone, Copy)]
pub(crate) enum Shown {
    Nothing,
    Register(u8),
    Number(u32),
}

// A line in its parts.
#[derive(Clone, Copy)]
pub(crate) struct Parts {
    word: &'static [u8],
    kind: Shown,
    a: Shown,
    b: Shown,
    c: Shown,
    number: Shown,
}

// By its number, as it stands in the page file.
fn call_name(number: u32) -> &'static [u8]
    ensures { result.now ≡ call_name number }
{
    match number {
        0 => b"wait",
        1 => b"ask",
        2 => b"say",
        3 => b"keep",
        4 => b"look",
        5 => b"open",
        _ => b"",
    }
}

// By the bytes of the page file: a step may also be one that has no mnemonic.
fn name_by(kind: u8, number: u32) -> &'static [u8]
    ensures { result.now ≡ name_by kind number }
{
    match kind {
        0 => b"const",
        1 => b"move",
        2 => b"sum",
        3 => b"product",
        4 => b"equal",
        5 => b"less",
        6 => b"jump",
        7 => b"jump_if",
        8 => b"load",
        9 => b"store",
        10 => call_name(number),
        _ => b"",
    }
}

// The mnemonic of the step, if there is one. It stands here once more, the other way round than for reading: that both say
// the same is what proves that a text is assembled back.
#[tactic(auto, unfolding(crate::specs::Lines::name_of))]
fn name_of(row: Row) -> &'static [u8]
    ensures { result.now ≡ name_of row }
{
    name_by(row.kind, row.number)
}

fn mark(shown: Shown) -> &'static [u8]
    ensures { result.now ≡ mark_of shown }
{
    match shown {
        Shown::Nothing => b"",
        Shown::Register(_) => b" r",
        Shown::Number(_) => b" ",
    }
}

fn digits(shown: Shown) -> SmallText
    ensures { drop result.from result.bytes ≡ digits_of shown }
{
    match shown {
        Shown::Nothing => SmallText::empty(),
        Shown::Register(n) => SmallText::decimal(u64::from(n)),
        Shown::Number(n) => SmallText::decimal(u64::from(n)),
    }
}

fn slot(wanted: bool, n: u8) -> Shown
    ensures { result ≡ slot wanted n }
{
    if wanted {
        Shown::Register(n)
    } else {
        Shown::Nothing
    }
}

fn slot_fits(wanted: bool, n: u8) -> bool
    ensures { result ≡ slot_fits wanted n }
{
    if wanted { n <= 31 } else { n == 0 }
}

fn tail_shown(tail: Tail, n: u32) -> Shown
    ensures { result ≡ tail_shown tail n }
{
    match tail {
        Tail::Fixed(_) => Shown::Nothing,
        Tail::Number | Tail::Target => Shown::Number(n),
    }
}

fn tail_fits(tail: Tail, n: u32) -> bool
    ensures { result ≡ tail_fits tail n }
{
    match tail {
        Tail::Fixed(fixed) => n == fixed,
        Tail::Number | Tail::Target => true,
    }
}

// Can the mnemonic say the step?
fn fits(form: Form, row: Row) -> bool
    ensures { result ≡ fits form row }
{
    row.kind == form.kind
        && tail_fits(form.tail, row.number)
        && slot_fits(form.registers > 0, row.a)
        && slot_fits(form.registers > 1, row.b)
        && slot_fits(form.registers > 2, row.c)
}

fn plain(word: &'static [u8], form: Form, row: Row) -> Parts
    ensures { parts_then result (10 ∷ []) ≡ plain_then word.now form row (10 ∷ []) }
{
    Parts {
        word,
        kind: Shown::Nothing,
        a: slot(form.registers > 0, row.a),
        b: slot(form.registers > 1, row.b),
        c: slot(form.registers > 2, row.c),
        number: tail_shown(form.tail, row.number),
    }
}

fn raw(row: Row) -> Parts
    ensures { parts_then result (10 ∷ []) ≡ raw_then row (10 ∷ []) }
{
    Parts {
        word: b"step",
        kind: Shown::Number(u32::from(row.kind)),
        a: Shown::Number(u32::from(row.a)),
        b: Shown::Number(u32::from(row.b)),
        c: Shown::Number(u32::from(row.c)),
        number: Shown::Number(row.number),
    }
}

#[tactic(auto, unfolding(crate::specs::Lines::line_then))]
pub(crate) fn parts_of(row: Row) -> Parts
    ensures { parts_then result (10 ∷ []) ≡ line_then row (10 ∷ []) }
{
    let word = name_of(row);
    match form_of(word) {
        Some(form) if fits(form, row) => plain(word, form, row),
        _ => raw(row),
    }
}

// The step that eight bytes are.
pub(crate) fn row_in(bytes: &[u8; 8]) -> Row
    ensures { result ≡ row_in bytes.now }
{
    let [kind, a, b, c, w, x, y, z] = *bytes;
    Row {
        kind,
        a,
        b,
        c,
        number: u32::from_be_bytes([w, x, y, z]),
    }
}

impl Parts {
    // Writes the line from a place on, if it fits, and gives the place after it; else nothing.
    pub(crate) fn put(self, out: &mut [u8], from: usize) -> Option<usize>
        ensures answer { result ≡ count_from from (parts_then self (10 ∷ [])) out.old }
        ensures after { out.new ≡ written_from from (parts_then self (10 ∷ [])) out.old }
    {
        let kind = digits(self.kind);
        let a = digits(self.a);
        let b = digits(self.b);
        let c = digits(self.c);
        let number = digits(self.number);
        put_from(
            out,
            from,
            &[
                self.word,
                mark(self.kind),
                kind.as_bytes(),
                mark(self.a),
                a.as_bytes(),
                mark(self.b),
                b.as_bytes(),
                mark(self.c),
                c.as_bytes(),
                mark(self.number),
                number.as_bytes(),
                b"\n",
            ],
        )
    }
}
