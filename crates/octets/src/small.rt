// A short text made of digits, for a number that is written between other pieces.
ghost use Rattle.std.specs.Prelude.{◌≡◌, ◌<◌, ◌≤◌, [], ◌∷◌, length, drop, decimal};

// A text of up to 21 bytes, at the end of an array: the digits of any number, and one byte before them. By value, since
// writers claim no memory; the digits of `itoa` would stay in its own buffer, and be copied from there.
#[derive(Clone, Copy)]
pub struct SmallText {
    bytes: [u8; 21],
    from: usize,
    ghost full: { length bytes ≡ 21 },
    ghost within: { from ≤ 21 },
}

impl SmallText {
    pub fn empty() -> SmallText
        ensures { drop result.from result.bytes ≡ [] }
    {
        SmallText {
            bytes: [0; 21],
            from: 21,
        }
    }

    fn digits(n: u64) -> SmallText
        ensures is { drop result.from result.bytes ≡ decimal n }
        ensures room { 0 < result.from }
    {
        let mut bytes = [0; 21];
        let mut at: usize = 21;
        // From the last digit to the first: how many there are is known at the end.
        let mut m = n;
        while m >= 10 {
            at -= 1;
            bytes[at] = b'0' + (m % 10) as u8;
            m /= 10;
        }
        at -= 1;
        bytes[at] = b'0' + m as u8;
        SmallText { bytes, from: at }
    }

    // A number in decimal digits.
    pub fn decimal(n: u64) -> SmallText
        ensures { drop result.from result.bytes ≡ decimal n }
    {
        SmallText::digits(n)
    }

    // A byte, and then a number in decimal digits.
    pub fn decimal_after(b: u8, n: u64) -> SmallText
        ensures { drop result.from result.bytes ≡ b ∷ decimal n }
    {
        let mut text = SmallText::digits(n);
        text.from -= 1;
        text.bytes[text.from] = b;
        text
    }

    pub fn as_bytes(&self) -> &[u8]
        ensures { result.now ≡ drop self.now.from self.now.bytes }
    {
        &self.bytes[self.from..]
    }
}
