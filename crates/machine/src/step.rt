// One step of a script. A step that names no register, no place of the memory or no other step is out of range.
ghost use Rattle.std.specs.Prelude.{◌≡◌};
ghost use Rattle.std.specs.Result.{result_ok};
ghost use Rattle.machine.specs.Step.{after, moved, number_at, pair_at, span_at, act_at, assigns, jumps, effect, step_of};

use crate::{Act, Flow, Machine, OutOfRange, Span};
use scripts::{Call, Step};

impl Machine {
    fn number(&self, a: u8) -> Result<u32, OutOfRange>
        ensures { result_ok result ≡ number_at self.now a }
    {
        if a >= 32 {
            return Err(OutOfRange);
        }
        Ok(self.registers[a as usize])
    }

    fn pair(&self, a: u8, b: u8) -> Result<(u32, u32), OutOfRange>
        ensures { result_ok result ≡ pair_at self.now a b }
    {
        Ok((self.number(a)?, self.number(b)?))
    }

    // The part of a memory of so many bytes that registers a and a + 1 name.
    pub fn span(&self, a: u8, size: usize) -> Result<Span, OutOfRange>
        ensures { result_ok result ≡ span_at self.now size a }
    {
        if a >= 31 {
            return Err(OutOfRange);
        }
        let from = self.registers[a as usize];
        let len = self.registers[a as usize + 1];
        if from as usize + len as usize > size {
            return Err(OutOfRange);
        }
        Ok(Span { from, len })
    }

    fn act(&self, call: Call, size: usize) -> Result<Act, OutOfRange>
        ensures { result_ok result ≡ act_at call self.now size }
    {
        let act = match call {
            Call::Nothing => Act::Nothing,
            Call::Ask { site, path, body } => Act::Ask {
                site: self.number(site)?,
                path: self.span(path, size)?,
                body: self.span(body, size)?,
            },
            Call::Say {
                window,
                site,
                bytes,
            } => Act::Say {
                window: self.number(window)?,
                site: self.number(site)?,
                bytes: self.span(bytes, size)?,
            },
            Call::Keep { bytes } => Act::Keep {
                bytes: self.span(bytes, size)?,
            },
            Call::Look => Act::Look,
            Call::Open { site, path } => Act::Open {
                site: self.number(site)?,
                path: self.span(path, size)?,
            },
        };
        Ok(act)
    }

    fn assign(&mut self, a: u8, x: u32) -> Flow
        ensures { moved result self.new ≡ assigns a x self.old }
    {
        if a >= 32 {
            return Err(OutOfRange);
        }
        self.registers[a as usize] = x;
        Ok(None)
    }

    fn jump(&mut self, to: u32, count: usize) -> Flow
        ensures { moved result self.new ≡ jumps to count self.old }
    {
        if to as usize >= count {
            return Err(OutOfRange);
        }
        self.next = to as usize;
        Ok(None)
    }

    // Does one step in a script of so many.
    fn execute(&mut self, step: Step, count: usize, memory: &mut [u8]) -> Flow
        ensures { after result self.new memory.new ≡ effect count step self.old memory.old }
    {
        match step {
            Step::Constant(a, n) => self.assign(a, n),
            Step::Move(a, b) => {
                let x = self.number(b)?;
                self.assign(a, x)
            }
            Step::Sum(a, b, c) => {
                let (x, y) = self.pair(b, c)?;
                self.assign(a, x.wrapping_add(y))
            }
            Step::Product(a, b, c) => {
                let (x, y) = self.pair(b, c)?;
                self.assign(a, x.wrapping_mul(y))
            }
            Step::Equal(a, b, c) => {
                let (x, y) = self.pair(b, c)?;
                self.assign(a, u32::from(x == y))
            }
            Step::Less(a, b, c) => {
                let (x, y) = self.pair(b, c)?;
                self.assign(a, u32::from(x < y))
            }
            Step::Jump(to) => self.jump(to, count),
            Step::JumpIf(a, to) => {
                if self.number(a)? == 0 {
                    return Ok(None);
                }
                self.jump(to, count)
            }
            Step::Load(a, b) => {
                let at = self.number(b)? as usize;
                if at >= memory.len() {
                    return Err(OutOfRange);
                }
                self.assign(a, u32::from(memory[at]))
            }
            Step::Store(a, b) => {
                let (at, x) = self.pair(a, b)?;
                let at = at as usize;
                if at >= memory.len() {
                    return Err(OutOfRange);
                }
                memory[at] = (x % 256) as u8;
                Ok(None)
            }
            Step::Wait(call) => Ok(Some(self.act(call, memory.len())?)),
        }
    }

    // Does the next step. One after the last is a fault.
    pub(crate) fn step(&mut self, script: &[Step], memory: &mut [u8]) -> Flow
        ensures { after result self.new memory.new ≡ step_of script.now self.old memory.old }
    {
        let at = self.next;
        if at >= script.len() {
            return Err(OutOfRange);
        }
        self.next = at + 1;
        self.execute(script[at], script.len(), memory)
    }
}
