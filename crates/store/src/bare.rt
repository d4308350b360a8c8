ghost use Rattle.std.specs.Prelude.{◌≤◌};

use std::marker::PhantomData;

mod methods;

// The store that covers nothing: it passes over every position that a teller of type `T` tells it.
#[derive(Drop)]
pub struct Bare<T> {
    passed: u32,
    teller: PhantomData<T>,
    ghost few: { passed ≤ 16000000 },
}
