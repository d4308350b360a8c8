ghost use Rattle.store.specs.Stores.{Blank};
ghost use Rattle.store.specs.Keepers.{bare_meaning};
ghost use Rattle.store.specs.Laws.{bare_lawful};

use super::Bare;
use crate::answer::Answer;
use crate::position::Position;
use crate::store::Store;
use problem::Refusal;
use std::marker::PhantomData;

impl<T> Bare<T> {
    // A store in its first hour.
    pub fn new() -> Bare<T>
        ensures { Blank (bare_meaning result) }
    {
        Bare {
            passed: 0,
            teller: PhantomData,
        }
    }
}

impl<T> Store for Bare<T> {
    type Teller = T;

    ghost meaning = { bare_meaning };

    ghost laws = { bare_lawful };

    fn review(&self, _position: &Position) -> bool {
        false
    }

    fn kept(&self) -> u32 {
        0
    }

    fn passed(&self) -> u32 {
        self.passed
    }

    fn tell(&mut self, _teller: &T, _position: &Position) -> Result<Answer, Refusal> {
        if self.passed == 16_000_000 {
            return Err(Refusal::StoreCounts);
        }
        self.passed += 1;
        Ok(Answer::PassedOver)
    }

    fn clear(&mut self) {
        self.passed = 0;
    }
}
