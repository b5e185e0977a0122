// One line of the text form.
ghost use Rattle.std.specs.Prelude.{◌≡◌, ◌≤◌, length, slice_index};
ghost use Rattle.std.specs.List.{prefix_len};
ghost use Rattle.std.specs.Option.{option_map};
ghost use Rattle.script_lines.specs.Reading.{meaning_of, line_read, numbered, at_end, ended_with, target_in, tail_line, step_line, raw_line, last_operand, has_hex, is_hex, in_text, quoted, pair_byte, data_of, source_of, source_in, data_bytes, data_line, label_in, other_line, line_in};

use crate::forms::{Form, Tail, form_of};
use crate::operands::{fault_at, next_word, read_operand, register_if};
use crate::words::{hex_value, is_name, number};
use crate::{Data, Expected, Fault, Line, Operand, Row, Source};
use octets::{Class, split, strip};

fn is_end(s: &[u8]) -> bool
    ensures { result ≡ at_end s.now }
{
    let (_, t) = split(Class::Blank, s);
    match t {
        [] | [b';', ..] => true,
        _ => false,
    }
}

// The line, if nothing is left of it but a comment.
fn ended<'a>(s: &'a [u8], line: Line<'a>) -> Result<Line<'a>, Fault>
    ensures { line_read result ≡ ended_with s.now (meaning_of line.entry) }
{
    if is_end(s) {
        Ok(line)
    } else {
        Err(fault_at(s, Expected::LineEnd))
    }
}

impl Row {
    fn numbered(self, number: u32) -> Row
        ensures { result ≡ numbered self number }
    {
        Row { number, ..self }
    }
}

// A step whose number is the last operand, or the place of the label that it names.
fn target_line(row: Row, s: &[u8]) -> Result<Line<'_>, Fault>
    ensures { line_read result ≡ target_in row s.now }
{
    let word = next_word(s);
    if let Some(n) = number(word.text) {
        return ended(word.rest, Line::Step(row.numbered(n)));
    }
    if !is_name(word.text) {
        return Err(fault_at(s, Expected::Target));
    }
    ended(word.rest, Line::Jump(row, word.text, word.left))
}

fn tail_line(row: Row, tail: Tail, s: &[u8]) -> Result<Line<'_>, Fault>
    ensures { line_read result ≡ tail_line row tail s.now }
{
    match tail {
        Tail::Fixed(n) => ended(s, Line::Step(row.numbered(n))),
        Tail::Number => {
            let (n, rest) = read_operand(Operand::Number, s)?;
            ended(rest, Line::Step(row.numbered(n)))
        }
        Tail::Target => target_line(row, s),
    }
}

// A step by its mnemonic.
fn step_line(form: Form, s: &[u8]) -> Result<Line<'_>, Fault>
    ensures { line_read result ≡ step_line form s.now }
{
    let (a, s) = register_if(form.registers > 0, s)?;
    let (b, s) = register_if(form.registers > 1, s)?;
    let (c, s) = register_if(form.registers > 2, s)?;
    let row = Row {
        kind: form.kind,
        a,
        b,
        c,
        number: 0,
    };
    tail_line(row, form.tail, s)
}

// The kind is the byte of the page file, which this form names as a number.
fn last_operand(kind: u8) -> Operand
    ensures { result ≡ last_operand kind }
{
    if kind == 10 {
        Operand::Call
    } else {
        Operand::Number
    }
}

// A step by all its bytes, for what no mnemonic says.
fn raw_line(s: &[u8]) -> Result<Line<'_>, Fault>
    ensures { line_read result ≡ raw_line s.now }
{
    let (kind, s) = read_operand(Operand::Kind, s)?;
    let (a, s) = read_operand(Operand::Byte, s)?;
    let (b, s) = read_operand(Operand::Byte, s)?;
    let (c, s) = read_operand(Operand::Byte, s)?;
    let (number, s) = read_operand(last_operand(kind as u8), s)?;
    let row = Row {
        kind: kind as u8,
        a: a as u8,
        b: b as u8,
        c: c as u8,
        number,
    };
    ended(s, Line::Step(row))
}

fn has_hex(w: &[u8]) -> bool
    ensures { result ≡ has_hex w.now }
{
    w.iter().all(|b| hex_value(*b) < 16)
}

fn is_hex(w: &[u8]) -> bool
    ensures { result ≡ is_hex w.now }
{
    !w.is_empty() && w.len() % 2 == 0 && has_hex(w)
}

// How many bytes there are before the second quote.
fn text_length(t: &[u8]) -> usize
    ensures is { result ≡ prefix_len in_text t.now }
    ensures within { result ≤ length t.now }
{
    t.iter().take_while(|b| **b != b'"').count()
}

// A text after its first quote, and what follows its second one.
fn quoted(t: &[u8]) -> Option<(Source<'_>, &[u8])>
    ensures { option_map source_of result ≡ quoted t.now }
{
    let length = text_length(t);
    let (text, end) = t.split_at(length);
    Some((Source::Text(text), strip(end, b"\"")?))
}

// The bytes of data, and what follows them.
#[tactic(auto, using(crate::proofs::Pairs::pairs_are))]
fn read_source(s: &[u8]) -> Option<(Source<'_>, &[u8])>
    ensures { option_map source_of result ≡ source_in s.now }
{
    if let Some(t) = strip(s, b"\"") {
        return quoted(t);
    }
    let (digits, rest) = split(Class::Visible, s);
    if !is_hex(digits) {
        return None;
    }
    let (pairs, _) = digits.as_chunks();
    Some((Source::Hex(pairs), rest))
}

// The byte that two hexadecimal digits write.
fn pair_byte(pair: &[u8; 2]) -> u8
    ensures { result ≡ pair_byte pair.now }
{
    let [d, e] = pair.map(hex_value);
    ((d as u16 * 16 + e as u16) % 256) as u8
}

impl Data<'_> {
    // How many bytes there are.
    pub fn count(self) -> usize
        ensures { result ≡ length (data_of self.entry) }
    {
        match self.source {
            Source::Text(text) => text.len(),
            Source::Hex(pairs) => pairs.len(),
        }
    }

    // One of the bytes; 0 past their end.
    pub fn byte(self, i: usize) -> u8
        ensures { result ≡ slice_index (data_of self.entry) i }
    {
        match self.source {
            Source::Text(text) => text.get(i).copied().unwrap_or(0),
            Source::Hex(pairs) => pairs.get(i).map_or(0, pair_byte),
        }
    }
}

// Out of line, as `read_operand` is.
#[inline(never)]
fn data_bytes(place: u32, x: u8, y: u8, s: &[u8]) -> Result<Line<'_>, Fault>
    requires { place ≤ 4095 }
    ensures { line_read result ≡ data_bytes place x y s.now }
{
    let (_, t) = split(Class::Blank, s);
    let (source, rest) = read_source(t).ok_or_else(|| fault_at(s, Expected::Bytes))?;
    let data = Data {
        place,
        x,
        y,
        source,
    };
    if data.count() > 4096 - place as usize {
        return Err(fault_at(s, Expected::Memory));
    }
    ended(rest, Line::Bytes(data))
}

fn data_line(s: &[u8]) -> Result<Line<'_>, Fault>
    ensures { line_read result ≡ data_line s.now }
{
    let (place, s) = read_operand(Operand::Place, s)?;
    let (x, s) = register_if(true, s)?;
    let (y, s) = register_if(true, s)?;
    data_bytes(place, x, y, s)
}

// The name in a word that ends with `:`.
fn label_in(w: &[u8]) -> Option<&[u8]>
    ensures { option_map (λ x. x.now) result ≡ label_in w.now }
{
    match w {
        [_, .., b':'] if is_name(w) => Some(&w[..w.len() - 1]),
        _ => None,
    }
}

fn other_line(line: &[u8]) -> Result<Line<'_>, Fault>
    ensures { line_read result ≡ other_line line.now }
{
    let word = next_word(line);
    match word.text {
        b"data" => data_line(word.rest),
        b"step" => raw_line(word.rest),
        _ => Err(fault_at(line, Expected::Mnemonic)),
    }
}

// What a line stands for, or what was expected in it.
#[tactic(auto, unfolding(crate::specs::Reading::line_in))]
pub fn read_line(line: &[u8]) -> Result<Line<'_>, Fault>
    ensures { line_read result ≡ line_in line.now }
{
    if is_end(line) {
        return Ok(Line::Nothing);
    }
    let word = next_word(line);
    if let Some(name) = label_in(word.text) {
        return ended(word.rest, Line::Label(name));
    }
    match form_of(word.text) {
        Some(form) => step_line(form, word.rest),
        None => other_line(line),
    }
}
