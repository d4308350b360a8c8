ghost use Rattle.std.specs.Prelude.{◌≤◌, min, length};

mod methods;

// A list over a lent slice: it takes entries until it is full. It may use the first `most` of the rows lent, and `count` of
// them are in use.
#[derive(Drop)]
pub struct Filled<'a, T> {
    rows: &'a mut [T],
    most: usize,
    count: usize,
    ghost held: { count ≤ min most (length rows.now) },
}
