// Values come in at the end and go out at the front.
ghost use Rattle.std.specs.Prelude.{◌≡◌, ◌<◌, ◌≤◌, [], length, drop, Some, None, OnSome, IfNone, is_some, if◌then◌else◌, nat_le, nat_lt};
ghost use Rattle.std.specs.List.{slice_get};
ghost use Rattle.std.specs.Option.{option_map};
ghost use Rattle.std.specs.Cmp.Lexicographic.{pointwise, lists_per, lists_equiv};
ghost use Rattle.std.specs.Cmp.{on_per, on_equiv};
ghost use Rattle.bounded.specs.Fixed.{items_of, up_to, appended};

use crate::fixed::FixedVec;

impl<T: Copy, const N: usize> FixedVec<T, N> {
    // No values. The filler stands at all places, and is never shown.
    pub fn empty(filler: T) -> FixedVec<T, N>
        ensures { items_of result ≡ [] }
    {
        FixedVec {
            len: 0,
            items: [filler; N],
        }
    }

    // These values, if they are not too many.
    pub fn from_slice(part: &[T], filler: T) -> Option<FixedVec<T, N>>
        ensures { option_map items_of result ≡ up_to N part.now }
    {
        let len = part.len();
        if len > N {
            return None;
        }
        let mut items = [filler; N];
        items[..len].copy_from_slice(part);
        Some(FixedVec { len, items })
    }

    // These values in place of those that were here, if they are not too many; else nothing. Only their places are written.
    pub fn assign(&mut self, part: &[T]) -> Option<()>
        ensures is { is_some result ≡ nat_le (length part.now) N }
        ensures after { items_of self.new ≡ (if nat_le (length part.now) N then part.now else items_of self.old) }
        ensures stays { IfNone result (self.new ≡ self.old) }
    {
        if part.len() > N {
            return None;
        }
        self.items[..part.len()].copy_from_slice(part);
        self.len = part.len();
        Some(())
    }

    pub fn as_slice(&self) -> &[T]
        ensures is { result.now ≡ items_of self.now }
        ensures short { length result.now ≤ N }
    {
        let room = &self.items[..];
        &room[0..self.len]
    }

    // How many values there are.
    pub fn len(&self) -> usize
        ensures is { result ≡ length (items_of self.now) }
        ensures few { result ≤ N }
    {
        self.len
    }

    // The value at a place.
    pub fn get(&self, place: usize) -> Option<T>
        ensures is { result ≡ slice_get (items_of self.now) place }
        ensures within { OnSome result (place < N) }
    {
        self.as_slice().get(place).copied()
    }

    // One value more at the end, and its place; nothing is done where there is no room.
    pub fn push(&mut self, value: T) -> Option<usize>
        ensures is { result ≡ (if nat_lt (length (items_of self.old)) N then Some (length (items_of self.old)) else None) }
        ensures after { items_of self.new ≡ appended N value (items_of self.old) }
        ensures stays { IfNone result (self.new ≡ self.old) }
    {
        let place = self.len;
        if place >= N {
            return None;
        }
        let room = &mut self.items[..];
        room[place] = value;
        self.len = place + 1;
        Some(place)
    }

    // The first value, which is then gone.
    pub fn pop_first(&mut self) -> Option<T>
        ensures is { result ≡ slice_get (items_of self.old) 0 }
        ensures after { items_of self.new ≡ drop 1 (items_of self.old) }
    {
        let first = *self.as_slice().first()?;
        let room = &mut self.items[..];
        room.rotate_left(1);
        self.len -= 1;
        Some(first)
    }
}

// By the values that both show: what stands behind the length is no part of them.
impl<T: PartialEq + Copy, const N: usize> PartialEq for FixedVec<T, N> {
    ghost eq = { λ a b. pointwise T.eq (items_of a) (items_of b) };

    ghost laws = { on_per items_of (lists_per T.laws) };

    fn eq(&self, other: &FixedVec<T, N>) -> bool {
        self.as_slice() == other.as_slice()
    }
}

impl<T: Eq + Copy, const N: usize> Eq for FixedVec<T, N> {
    ghost laws = { on_equiv items_of (lists_equiv T.Eq.laws) };
}
