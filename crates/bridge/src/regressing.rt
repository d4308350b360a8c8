use crate::dismissing::Nothing;
use crate::reading::on_first_question;
use problem::{Goal, Problem};
use regression::{Due, Found, Node, Part, ROOM, begin_work, next_due};

// How many positions were made due, and their numbers added up.
#[derive(Clone, Copy, Default)]
#[repr(C)]
pub struct Worked {
    pub due: u64,
    pub sum: u64,
}

impl Worked {
    // With one position more.
    fn with(self, due: Due) -> Worked {
        let Goal { need, avoid } = due.region;
        let own = (due.step ^ need.rotate_left(21) ^ avoid.rotate_left(42)).wrapping_mul(
            0x9e37_79b9_7f4a_7c15,
        );
        Worked {
            due: self.due.wrapping_add(1),
            sum: self.sum.wrapping_add(own),
        }
    }
}

// Finds all that is made due below a goal.
fn work(problem: &Problem, aim: Goal) -> Worked {
    let mut nodes = [Node::default(); ROOM];
    let mut worked = Worked::default();
    let Some(mut part) = begin_work(problem, aim, &mut nodes, 0) else {
        return worked;
    };
    // rounds are counted: with the weight of the part as the measure, which gets less, the proof did not close
    for _due in 0..u32::MAX {
        match next_due(problem, aim, &Nothing, &mut nodes, part) {
            Found::Made(due, left) => {
                worked = worked.with(due);
                part = Part {
                    start: 0,
                    count: left,
                };
            }
            _ => break,
        }
    }
    worked
}

// Reads a problem and a question, and finds all that is made due below its goal.
#[unsafe(no_mangle)]
pub extern "C" fn bridge_regression(text: &[u8]) -> Worked {
    on_first_question(text, |problem, question| work(problem, question.goal)).unwrap_or_default()
}
