// Why nothing more comes over a pair of streams.
ghost use Rattle.std.specs.Prelude.{◌≡◌, Some};
ghost use Rattle.pipes.specs.Faults.{fault_text};

use std::fmt;

#[derive(Clone, Copy, PartialEq, Eq, Debug)]
pub enum Fault {
    // The output does not take what is written.
    Output,
    // The input can't be read.
    Input,
    // What came is no head of a frame, or none of the kind that is due.
    Head,
    // What came is another site's.
    Site,
}

#[derive(Clone, Copy, PartialEq, Eq, Debug)]
pub enum Lost {
    // The input has ended.
    Ended,
    Broken(Fault),
}

impl Fault {
    // For people: a text that is there for good, so that a program's own errors can hold it.
    pub fn text(self) -> &'static str
        ensures { result.now ≡ fault_text self }
    {
        match self {
            Fault::Output => "a frame can't be written",
            Fault::Input => "the input can't be read",
            Fault::Head => "what came is no frame that is due",
            Fault::Site => "what came is a frame of another site",
        }
    }
}

impl fmt::Display for Fault {
    ghost output = { λ f. Some (fault_text f) };

    fn fmt<W: fmt::Write>(&self, f: &mut fmt::Formatter<W>) -> fmt::Result {
        f.write_str(self.text())
    }
}
