// The other side: requests come in, and each gets its answer.
ghost use Rattle.std.specs.Prelude.{length};
ghost use Rattle.addresses.specs.Views.{site_of};
ghost use Rattle.storage.specs.Tables.{table_of};
ghost use Rattle.pipes.specs.Faults.{Within};
ghost use Rattle.pipes.specs.Serving.{Served, ServedOnce};

use crate::fault::{Fault, Lost};
use crate::streams::{read_bytes, read_line, write_frame};
use frames::{HEAD_ROOM, Head, Kind, read_head};
use servers::carrier::Carrier;
use std::io::{Read, Write};
use storage::table::Table;

// Streams, servers and rooms stand by themselves: of a struct that lends them, nothing is known of them once it is let go.

// The answer to the request that follows its head, by the server of the site that the head names. A request that is too
// long, or to a site that has no number, is answered by no bytes.
fn respond<R: Read, C: Carrier>(
    input: &mut R,
    table: &Table,
    servers: &mut C,
    head: Head<'_>,
    request: &mut [u8],
    answer: &mut [u8],
) -> Result<usize, Lost>
    ensures within { Within result (length answer.new) }
    ensures served { ServedOnce C.carries (length answer.old) (table_of table.now) (site_of head.entry.site) servers.old servers.new }
{
    let Some(len) = read_bytes(input, head.len as usize, request)? else {
        return Ok(0);
    };
    let Some(number) = table.number_of(head.site) else {
        return Ok(0);
    };
    Ok(servers.exchange(number.number(), &request[..len], answer))
}

// One request and its answer, which is its site's.
fn serve_one<R: Read, W: Write, C: Carrier>(
    input: &mut R,
    output: &mut W,
    table: &Table,
    servers: &mut C,
    request: &mut [u8],
    answer: &mut [u8],
) -> Result<(), Lost>
    ensures { Served C.carries (length answer.old) (table_of table.now) servers.old servers.new }
{
    let mut line = [0u8; HEAD_ROOM];
    let n = read_line(input, &mut line)?;
    let head = read_head(&line[..n]).ok_or(Lost::Broken(Fault::Head))?;
    let Kind::Request = head.kind else {
        return Err(Lost::Broken(Fault::Head));
    };
    let count = respond(input, table, servers, head, request, answer)?;
    write_frame(output, Kind::Answer, head.site, &answer[..count])
}

// Answers requests one after another, and says why it stopped. Servers are touched by exchanges with sites of the table,
// and by nothing else. Nothing says that an input ends, so it gives up after
// 2^64 - 1 requests.
pub fn serve<R: Read, W: Write, C: Carrier>(
    input: &mut R,
    output: &mut W,
    table: &Table,
    servers: &mut C,
    request: &mut [u8],
    answer: &mut [u8],
) -> Lost
    ensures { Served C.carries (length answer.old) (table_of table.now) servers.old servers.new }
{
    for _ in 0..u64::MAX {
        if let Err(lost) = serve_one(input, output, table, servers, request, answer) {
            return lost;
        }
    }
    Lost::Ended
}
