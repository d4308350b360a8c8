ghost use Rattle.std.specs.Prelude.{◌≡◌, ℕ, ◌+◌, ◌<◌, ◌≤◌, min, List, [], ◌∷◌, ◌++◌, length, if◌then◌else◌, nat_lt, slice_set};
ghost use Rattle.sets.specs.Lists.{rows_of, count_of, room_of, taken};

use super::Filled;

impl<'a, T: Copy> Filled<'a, T> {
    // An empty list over `rows`, that will use at most `most` of them.
    pub fn over(rows: &'a mut [T], most: usize) -> Filled<'a, T>
        ensures empty { count_of result ≡ 0 }
        ensures room { room_of result ≡ min most (length rows.old) }
        ensures same { rows_of result ≡ rows.old }
        ensures taken { taken result ≡ [] }
        ensures lent { result.rows.ghost_name ≡ rows.entry.ghost_name }
    {
        Filled {
            rows,
            most,
            count: 0,
        }
    }

    // How many entries are held.
    pub fn len(&self) -> usize
        ensures { result ≡ count_of self.now }
    {
        self.count
    }

    // How many entries the list may hold.
    pub fn room(&self) -> usize
        ensures { result ≡ room_of self.now }
    {
        self.most.min(self.rows.len())
    }

    // The entries held.
    pub fn entries(&self) -> &[T]
        ensures { result.now ≡ taken self.now }
    {
        &self.rows[..self.count]
    }

    // Holds nothing more; no row is written.
    pub fn clear(&mut self)
        ensures emptied { count_of self.new ≡ 0 }
        ensures taken { taken self.new ≡ [] }
        ensures room { room_of self.new ≡ room_of self.old }
        ensures same { rows_of self.new ≡ rows_of self.old }
        ensures lent { self.new.rows.ghost_name ≡ self.old.rows.ghost_name }
    {
        self.count = 0;
    }

    // Puts `row` behind the entries, unless the list is full; whether it did.
    pub fn push(&mut self, row: T) -> bool
        ensures took { result ≡ nat_lt (count_of self.old) (room_of self.old) }
        ensures count { count_of self.new ≡ (if result then count_of self.old + 1 else count_of self.old) }
        ensures room { room_of self.new ≡ room_of self.old }
        ensures rows { rows_of self.new ≡ (if result then slice_set (rows_of self.old) (count_of self.old) row else rows_of self.old) }
        ensures taken { taken self.new ≡ (if result then taken self.old ++ row ∷ [] else taken self.old) }
        ensures lent { self.new.rows.ghost_name ≡ self.old.rows.ghost_name }
    {
        if self.count < self.room() {
            self.rows[self.count] = row;
            self.count += 1;
            true
        } else {
            false
        }
    }
}
