use crate::taking::ENTRIES;
use crate::tally::Tally;
use crate::turns::{Aim, Ask, Turn};
use chance::{Chance, count};
use plain::{Found, search};
use problem::{Goal, Problem, Question, Refusal};
use sets::{all_below, without};
use std::alloc::{AllocError, Global};

// No problem has more states.
const STATES: usize = 256;

// The faults that a question can have, in the order in which they are looked for.
const FAULTS: [Refusal; 5] = [
    Refusal::UnknownAtom,
    Refusal::SharedAtom,
    Refusal::BadLevel,
    Refusal::BadBudget,
    Refusal::TooShort,
];

// What turns are drawn with and for, and where it is counted that the plain search finds no answer.
#[derive(Drop)]
pub struct Drawing<'a> {
    pub heap: Global,
    pub problem: &'a Problem<'a>,
    pub chance: &'a mut Chance,
    pub tally: &'a mut Tally,
}

// A question about an aim, and a list with room for its limit or for more.
fn draw_ask(chance: &mut Chance, aim: Aim) -> Ask {
    let limit = if chance.below(4) == 0 {
        32
    } else {
        chance.between(0..=7)
    };
    let budget = match chance.below(8) {
        0 => 0,
        1 => 1,
        2 => 2,
        3 => 40,
        4 => 20_000,
        // the highest budget, where nothing can be opened
        5 if limit == 0 => 1_000_000,
        _ => 2_000,
    };
    let room = if chance.below(2) == 0 {
        limit as usize
    } else {
        ENTRIES
    };
    Ask {
        question: Question {
            goal: aim.goal,
            limit,
            budget,
        },
        fewest: aim.fewest,
        room,
        declined: None,
    }
}

// What is asked with one fault, or also with all those that are looked for later: it is declined for the first.
fn spoil(chance: &mut Chance, all: u64, ask: Ask) -> Ask {
    let first = chance.below(5) as usize;
    let last = if chance.below(2) == 0 { first } else { 4 };
    let faults = &FAULTS[first..=last];
    let Question {
        goal: Goal { need, avoid },
        limit,
        budget,
    } = ask.question;
    let unknown = if faults.contains(&Refusal::UnknownAtom) {
        without(all.saturating_add(1), all)
    } else {
        0
    };
    let shared = u64::from(faults.contains(&Refusal::SharedAtom));
    let limit = if faults.contains(&Refusal::BadLevel) {
        33
    } else {
        limit.max(1)
    };
    let budget = if faults.contains(&Refusal::BadBudget) {
        1_000_001
    } else {
        budget
    };
    let room = if faults.contains(&Refusal::TooShort) {
        limit as usize - 1
    } else {
        ask.room.max(limit as usize)
    };
    let goal = Goal {
        need: need | unknown | shared,
        avoid: avoid | shared,
    };
    Ask {
        question: Question {
            goal,
            limit,
            budget,
        },
        room,
        declined: Some(FAULTS[first]),
        ..ask
    }
}

// A review of an aim at this level or at another: perhaps at none that there is, and perhaps with an atom in both sets.
fn draw_review(chance: &mut Chance, aim: Aim, level: u8) -> Turn {
    let level = if chance.below(2) == 0 {
        level
    } else {
        chance.between(0..=33)
    };
    let shared = u64::from(chance.below(8) == 0);
    let declined = if level == 0 || level > 32 {
        Some(Refusal::BadLevel)
    } else if shared != 0 {
        Some(Refusal::SharedAtom)
    } else {
        None
    };
    let goal = Goal {
        need: aim.goal.need | shared,
        avoid: aim.goal.avoid | shared,
    };
    Turn::Review(level, Aim { goal, ..aim }, declined)
}

impl Drawing<'_> {
    // The set of all atoms of the problem.
    fn atoms(&self) -> u64 {
        all_below(self.problem.atoms as usize)
    }

    // A goal with what the plain search says of it.
    fn measure(&mut self, goal: Goal) -> Aim {
        // three answers and two faults, of which all but two are counted: no method of `Result` says it shorter
        let fewest = match search(self.heap, self.problem, goal, 32, STATES) {
            Ok(Found::Plan(steps)) => Some(steps.len()),
            Ok(Found::NotWithin) => None,
            _ => {
                count(&mut self.tally.unfinished, true);
                None
            }
        };
        Aim { goal, fewest }
    }

    fn aim(&mut self) -> Aim {
        let all = self.atoms();
        let goal = self.chance.goal(all);
        self.measure(goal)
    }

    // The one of some drawn aims that takes the most steps, if any of them can be reached.
    fn far_aim(&mut self) -> Aim {
        let mut far = self.aim();
        for _ in 0..5u32 {
            let aim = self.aim();
            if aim.fewest.unwrap_or(0) > far.fewest.unwrap_or(0) {
                far = aim;
            }
        }
        far
    }

    // Draws turns about an aim: it is planned for and reviewed, a stricter one is reviewed, and some more.
    fn turns_about(&mut self, aim: Aim, turns: &mut Vec<Turn>) -> Result<(), AllocError> {
        let all = self.atoms();
        let ask = draw_ask(self.chance, aim);
        let limit = ask.question.limit;
        turns.push(Turn::Plan(ask))?;
        turns.push(Turn::Review(limit.max(1), aim, None))?;
        let Goal { need, avoid } = aim.goal;
        let more = without(self.chance.few(all), avoid);
        let stricter = self.measure(Goal {
            need: need | more,
            avoid,
        });
        turns.push(draw_review(self.chance, stricter, limit))?;
        if self.chance.below(3) == 0 {
            turns.push(Turn::Plan(draw_ask(self.chance, aim)))?;
        }
        if self.chance.below(4) == 0 {
            turns.push(Turn::Plan(spoil(self.chance, all, ask)))?;
        }
        if self.chance.below(6) == 0 {
            turns.push(Turn::Clear)?;
            turns.push(Turn::Plan(ask))?;
        }
        Ok(())
    }

    // Draws the turns to be taken on each store.
    pub fn turns(&mut self) -> Result<Vec<Turn>, AllocError> {
        let mut turns = Vec::new(self.heap);
        for _ in 0..3u32 {
            let aim = self.aim();
            self.turns_about(aim, &mut turns)?;
            let far = self.far_aim();
            self.turns_about(far, &mut turns)?;
        }
        Ok(turns)
    }
}
