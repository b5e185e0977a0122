// Pieces written one after another into a lent buffer.
ghost use Rattle.std.specs.Prelude.{◌≡◌};
ghost use Rattle.std.specs.List.{flat_map};
ghost use Rattle.octets.specs.Buffers.{room_after, written, count, written_from, count_from};

// What is left of n bytes of room after the pieces, if they fit.
pub fn room_after(pieces: &[&[u8]], n: usize) -> Option<usize>
    ensures { result ≡ room_after (flat_map (λ x. x.now) pieces.now) n }
{
    // A loop: for a `try_fold` no proof was found.
    let mut room = n;
    for p in pieces {
        room = room.checked_sub(p.len())?;
    }
    Some(room)
}

// Writes the pieces one after another from a place on, if all fit, and gives the place after them; else nothing.
pub fn put_from(out: &mut [u8], from: usize, pieces: &[&[u8]]) -> Option<usize>
    ensures answer { result ≡ count_from from (flat_map (λ x. x.now) pieces.now) out.old }
    ensures after { out.new ≡ written_from from (flat_map (λ x. x.now) pieces.now) out.old }
{
    let room = out.len().checked_sub(from)?;
    room_after(pieces, room)?;
    // A place in the buffer, and not the number of a piece: it moves on by the length of each.
    let mut at = from;
    for p in pieces {
        let k = p.len();
        out[at..at + k].copy_from_slice(p);
        at += k;
    }
    Some(at)
}

// Writes the pieces one after another at the front, if all fit; else nothing.
pub fn put_all(out: &mut [u8], pieces: &[&[u8]]) -> Option<usize>
    ensures answer { result ≡ count (flat_map (λ x. x.now) pieces.now) out.old }
    ensures after { out.new ≡ written (flat_map (λ x. x.now) pieces.now) out.old }
{
    put_from(out, 0, pieces)
}
