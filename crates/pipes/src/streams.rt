// Frames read from a stream and written to one.
ghost use Rattle.std.specs.Prelude.{◌≡◌, ◌≤◌, length};
ghost use Rattle.pipes.specs.Faults.{Within, WithinSome};

use crate::fault::{Fault, Lost};
use addresses::Site;
use frames::{HEAD_ROOM, Head, Kind, MOST_BYTES, write_head};
use std::io;
use std::io::{ErrorKind, Read, Write};

// Fills the part. An input that ends is no fault.
fn fill<R: Read>(input: &mut R, part: &mut [u8]) -> Result<(), Lost>
    ensures { length part.new ≡ length part.old }
{
    input.read_exact(part).map_err(|e| {
        if e.kind() == ErrorKind::UnexpectedEof {
            Lost::Ended
        } else {
            Lost::Broken(Fault::Input)
        }
    })
}

fn next_byte<R: Read>(input: &mut R) -> Result<u8, Lost> {
    let mut one = [0u8; 1];
    fill(input, &mut one)?;
    Ok(one[0])
}

// The bytes up to a newline and with it: byte by byte, so that nothing behind it is taken.
pub(crate) fn read_line<R: Read>(input: &mut R, line: &mut [u8]) -> Result<usize, Lost>
    ensures { Within result (length line.new) }
{
    // n bytes are before this one
    for (n, place) in line.iter_mut().enumerate() {
        *place = next_byte(input)?;
        if *place == b'\n' {
            return Ok(n + 1);
        }
    }
    Err(Lost::Broken(Fault::Head))
}

fn skip_part<R: Read>(input: &mut R, n: usize) -> Result<(), Lost>
    requires { n ≤ 1024 }
{
    let mut part = [0u8; 1024];
    fill(input, &mut part[..n])
}

// Passes over so many bytes, in parts.
fn skip<R: Read>(input: &mut R, count: usize) -> Result<(), Lost> {
    for _ in 0..count / 1024 {
        skip_part(input, 1024)?;
    }
    skip_part(input, count % 1024)
}

// The bytes of a frame, at the front of the room. One that is longer than the room is passed over.
pub(crate) fn read_bytes<R: Read>(
    input: &mut R,
    count: usize,
    room: &mut [u8],
) -> Result<Option<usize>, Lost>
    ensures { WithinSome result (length room.new) }
{
    if count > room.len() {
        skip(input, count)?;
        return Ok(None);
    }
    fill(input, &mut room[..count])?;
    Ok(Some(count))
}

fn put_frame<W: Write>(output: &mut W, head: &[u8], bytes: &[u8]) -> io::Result<()> {
    output.write_all(head)?;
    output.write_all(bytes)?;
    output.flush()
}

// Writes a whole frame, so that whoever waits for it has all of it.
pub(crate) fn write_frame<W: Write>(
    output: &mut W,
    kind: Kind,
    site: Site<'_>,
    bytes: &[u8],
) -> Result<(), Lost> {
    if bytes.len() > MOST_BYTES as usize {
        return Err(Lost::Broken(Fault::Output));
    }
    let len = bytes.len() as u32;
    let mut line = [0u8; HEAD_ROOM];
    let n = write_head(&mut line, Head { kind, site, len }).ok_or(Lost::Broken(Fault::Output))?;
    put_frame(output, &line[..n], bytes).map_err(|_| Lost::Broken(Fault::Output))
}
