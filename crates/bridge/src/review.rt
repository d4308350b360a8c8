use crate::random::{scatter, scattered_behind};
use problem::Goal;
use sets::without;
use store::{Keeper, KeptRow, Position, Store};

// What this crate tells its keepers with.
#[derive(Drop)]
struct Tells;

// A position that a number stands for, or none where the number does not give one.
fn position_at(x: u64) -> Option<Position> {
    let need = scatter(x) & scatter(x ^ 1);
    let avoid = without(scatter(x ^ 2) & scatter(x ^ 3), need);
    let level = (x % 32) as u8 + 1;
    Position::new(level, Goal { need, avoid }).ok()
}

// Tells a keeper so many scattered positions.
fn fill(keeper: &mut Keeper<Tells>, count: u32, seed: u64) {
    for x in scattered_behind(seed).take(count as usize) {
        if let Some(position) = position_at(x) {
            let _ = keeper.tell(&Tells, &position);
        }
    }
}

// Tells a keeper of 4,096 rows so many scattered positions, reviews so many others, and counts those covered.
#[unsafe(no_mangle)]
pub extern "C" fn bridge_review(told: u32, reviewed: u32, seed: u64) -> u64 {
    let mut rows = [KeptRow::default(); 4096];
    let mut keeper = Keeper::over(&mut rows);
    fill(&mut keeper, told, seed);
    scattered_behind(seed ^ 0x5555_5555)
        .take(reviewed as usize)
        .filter(|x| position_at(*x).is_some_and(|position| keeper.review(&position)))
        .count() as u64
}
