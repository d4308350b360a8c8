// What a store answers that is told a position.
#[derive(Clone, Copy)]
pub enum Answer {
    // it covers the position already
    Known,
    // it covers what the position covers from now on
    Kept,
    // it only counts the position
    PassedOver,
}
