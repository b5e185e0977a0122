// A carrier whose servers are behind a pair of streams.
ghost use Rattle.std.specs.Prelude.{◌≡◌, true, length};
ghost use Rattle.pipes.specs.Faults.{Within};
ghost use Rattle.pipes.specs.Carries.{Carried, is_broken};

use crate::fault::{Fault, Lost};
use crate::streams::{read_bytes, read_line, write_frame};
use addresses::Site;
use bounded::site::SiteNumber;
use frames::{HEAD_ROOM, Kind, read_head};
use servers::carrier::Carrier;
use std::io::{Read, Write};
use storage::table::Table;

// Once lost, nothing is sent or read any more, and every answer is no bytes.
#[derive(Drop)]
pub struct Pipes<R, W> {
    pub table: Table,
    pub input: R,
    pub output: W,
    pub lost: Option<Lost>,
}

// The answer's frame, which must be the asked site's. The streams stand by themselves: the site is lent by the table, so
// all of Pipes cannot be lent beside it.
fn read_answer<R: Read>(input: &mut R, asked: Site<'_>, room: &mut [u8]) -> Result<usize, Lost>
    ensures { Within result (length room.new) }
{
    let mut line = [0u8; HEAD_ROOM];
    let n = read_line(input, &mut line)?;
    let head = read_head(&line[..n]).ok_or(Lost::Broken(Fault::Head))?;
    let Kind::Answer = head.kind else {
        return Err(Lost::Broken(Fault::Head));
    };
    if head.site != asked {
        return Err(Lost::Broken(Fault::Site));
    }
    let count = read_bytes(input, head.len as usize, room)?;
    Ok(count.unwrap_or(0))
}

fn ask<R: Read, W: Write>(
    input: &mut R,
    output: &mut W,
    asked: Site<'_>,
    request: &[u8],
    room: &mut [u8],
) -> Result<usize, Lost>
    ensures { Within result (length room.new) }
{
    write_frame(output, Kind::Request, asked, request)?;
    read_answer(input, asked, room)
}

impl<R: Read, W: Write> Carrier for Pipes<R, W> {
    ghost carries = { λ room x site request answer y. Carried room x.lost x.table site answer y.lost y.table (y ≡ x) };

    ghost broken = { λ p. is_broken p.lost };

    fn exchange(&mut self, site: u8, request: &[u8], room: &mut [u8]) -> usize {
        if self.lost.is_some() {
            return 0;
        }
        let Some(number) = SiteNumber::new(site as u32) else {
            return 0;
        };
        let Some(asked) = self.table.site(number) else {
            return 0;
        };
        match ask(&mut self.input, &mut self.output, asked, request, room) {
            Ok(n) => n,
            Err(lost) => {
                self.lost = Some(lost);
                0
            }
        }
    }

    fn is_broken(&self) -> bool {
        matches!(self.lost, Some(Lost::Broken(_)))
    }
}
