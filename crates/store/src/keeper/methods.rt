ghost use Rattle.std.specs.Prelude.{◌≡◌, min, [], length, Decides};
ghost use Rattle.sets.specs.Search.{First, Somewhere};
ghost use Rattle.store.specs.Positions.{target_of, row_of};
ghost use Rattle.store.specs.Stores.{Blank, Telling};
ghost use Rattle.store.specs.Keepers.{rows_lent, held_rows, room, keeper_meaning, RowCovers, Files, LetsGo};
ghost use Rattle.store.specs.Laws.{keeper_lawful};

use super::Keeper;
use crate::answer::Answer;
use crate::position::Position;
use crate::row::KeptRow;
use crate::store::Store;
use problem::Refusal;
use sets::{Filled, next_fit};
use std::marker::PhantomData;

impl<'a, T> Keeper<'a, T> {
    // A store in its first hour over `rows`, of which it will use at most 4096.
    pub fn over(rows: &'a mut [KeptRow]) -> Keeper<'a, T>
        ensures blank { Blank (keeper_meaning result) }
        ensures none { held_rows result ≡ [] }
        ensures room { room result ≡ min 4096 (length rows.old) }
        ensures same { rows_lent result ≡ rows.old }
        ensures lent { result.list.rows.ghost_name ≡ rows.entry.ghost_name }
    {
        Keeper {
            list: Filled::over(rows, 4096),
            passed: 0,
            teller: PhantomData,
        }
    }
}

// The first of the rows that covers a position.
fn first_covering(rows: &[KeptRow], position: &Position) -> Option<usize>
    ensures { First (RowCovers (target_of position.now)) rows.now 0 result }
{
    next_fit(rows, 0, position)
}

impl<'a, T> Store for Keeper<'a, T> {
    type Teller = T;

    ghost meaning = { keeper_meaning };

    ghost laws = { keeper_lawful };

    fn review(&self, position: &Position) -> bool
        ensures value { result ≡ (keeper_meaning self.now).covers (target_of position.now) }
        ensures decides { Decides result (Somewhere (RowCovers (target_of position.now)) (held_rows self.now)) }
    {
        first_covering(self.list.entries(), position).is_some()
    }

    fn kept(&self) -> u32 {
        self.list.len() as u32
    }

    fn passed(&self) -> u32 {
        self.passed
    }

    fn tell(&mut self, _teller: &T, position: &Position) -> Result<Answer, Refusal>
        ensures telling { Telling (keeper_meaning self.old) (target_of position.now) result (keeper_meaning self.new) }
        ensures files { Files self.old (row_of position.now) result self.new }
        ensures ghost_name_unchanged { self.new.list.rows.ghost_name ≡ self.old.list.rows.ghost_name }
    {
        if self.kept() + self.passed == 16_000_000 {
            return Err(Refusal::StoreCounts);
        }
        if self.review(position) {
            return Ok(Answer::Known);
        }
        if self.list.push(KeptRow::from(*position)) {
            Ok(Answer::Kept)
        } else {
            self.passed += 1;
            Ok(Answer::PassedOver)
        }
    }

    fn clear(&mut self)
        ensures blank { Blank (keeper_meaning self.new) }
        ensures lets_go { LetsGo self.old self.new }
        ensures ghost_name_unchanged { self.new.list.rows.ghost_name ≡ self.old.list.rows.ghost_name }
    {
        self.list.clear();
        self.passed = 0;
    }
}
