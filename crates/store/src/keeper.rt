ghost use Rattle.std.specs.Prelude.{◌+◌, ◌≤◌};
ghost use Rattle.sets.specs.Lists.{count_of};

use crate::row::KeptRow;
use sets::Filled;
use std::marker::PhantomData;

mod methods;

// The store that keeps what a teller of type `T` tells it, in order, in the rows lent to it, and passes over what comes when
// they are full.
#[derive(Drop)]
pub struct Keeper<'a, T> {
    list: Filled<'a, KeptRow>,
    passed: u32,
    teller: PhantomData<T>,
    ghost few: { count_of list + passed ≤ 16000000 },
}
