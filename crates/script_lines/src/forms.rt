// Mnemonics.
ghost use Rattle.std.specs.Prelude.{◌≡◌};
ghost use Rattle.script_lines.specs.Forms.{form_of};

// The number of a step: one that its mnemonic has, or an operand.
#[derive(Clone, Copy)]
pub enum Tail {
    Fixed(u32),
    Number,
    Target,
}

// What a mnemonic says of its step, and how many registers it takes. The kind is the byte that stands in the page file.
#[derive(Clone, Copy)]
pub struct Form {
    pub kind: u8,
    pub registers: u8,
    pub tail: Tail,
}

// What the mnemonic says, if it is one.
pub fn form_of(w: &[u8]) -> Option<Form>
    ensures { result ≡ form_of w.now }
{
    let (kind, registers, tail) = match w {
        b"const" => (0, 1, Tail::Number),
        b"move" => (1, 2, Tail::Fixed(0)),
        b"sum" => (2, 3, Tail::Fixed(0)),
        b"product" => (3, 3, Tail::Fixed(0)),
        b"equal" => (4, 3, Tail::Fixed(0)),
        b"less" => (5, 3, Tail::Fixed(0)),
        b"jump" => (6, 0, Tail::Target),
        b"jump_if" => (7, 1, Tail::Target),
        b"load" => (8, 2, Tail::Fixed(0)),
        b"store" => (9, 2, Tail::Fixed(0)),
        b"wait" => (10, 0, Tail::Fixed(0)),
        b"ask" => (10, 3, Tail::Fixed(1)),
        b"say" => (10, 3, Tail::Fixed(2)),
        b"keep" => (10, 1, Tail::Fixed(3)),
        b"look" => (10, 0, Tail::Fixed(4)),
        b"open" => (10, 2, Tail::Fixed(5)),
        _ => return None,
    };
    Some(Form {
        kind,
        registers,
        tail,
    })
}
