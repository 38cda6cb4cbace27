//! Places of a passed list that are used from the front: what keeper and text writer are.

ghost use Rattle.std.specs.Prelude.{◌≡◌, ◌+◌, ◌≤◌, [], ◌++◌, length, drop, nat_le};

/// A passed list, used from the front.
// Keeper and text writer are this type and do not hold it: of a passed list that lies deeper than a field, a caller learns
// nothing once it is given back.
#[derive(Drop)]
pub struct Places<'a, T> {
    cells: &'a mut [T],
    /// How many of the cells are used, where there are so many.
    // No ghost field says that there are: a function that is passed a struct with one, which holds a `&mut`, could not hand it
    // on to another without a proof by hand.
    used: usize,
}

impl<'a, T> Places<'a, T> {
    ghost use Rattle.receivers.specs.Places.{held_in, spare_in, room_in};

    /// The places of this list, of which none is used.
    pub fn new(cells: &'a mut [T]) -> Places<'a, T>
        ensures holds { held_in result ≡ [] }
        ensures unused { spare_in result ≡ cells.old }
        ensures places { room_in result ≡ length cells.old }
        ensures lender { result.cells.ghost_name ≡ cells.entry.ghost_name }
    {
        Places { cells, used: 0 }
    }

    /// How many are used.
    pub fn used(&self) -> usize
        ensures { result ≡ length (held_in self.now) }
    {
        self.used.min(self.cells.len())
    }

    /// Whether there is room for so many more.
    pub(crate) fn fits(&self, more: usize) -> bool
        ensures { result ≡ nat_le (length (held_in self.now) + more) (room_in self.now) }
    {
        more <= self.cells.len() - self.used()
    }
}

impl<T: Copy> Places<'_, T> {
    ghost use Rattle.receivers.specs.Places.{held_in, spare_in, room_in};

    /// Writes the part behind what is held.
    pub(crate) fn append(&mut self, part: &[T])
        requires { length (held_in self.old) + length part.now ≤ room_in self.old }
        ensures held { held_in self.new ≡ held_in self.old ++ part.now }
        ensures spare { spare_in self.new ≡ drop (length part.now) (spare_in self.old) }
        ensures room { room_in self.new ≡ room_in self.old }
        ensures lender { self.new.cells.ghost_name ≡ self.old.cells.ghost_name }
    {
        let start = self.used();
        let end = start + part.len();
        self.cells[start..end].copy_from_slice(part);
        self.used = end;
    }
}
