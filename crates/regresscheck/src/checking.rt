use crate::asked::Query;
use problem::{Goal, Problem};
use regression::{Dismissal, Due, Found, Node, Part, ROOM, begin_work, next_due};
use sets::{inside, members_of};
use std::alloc::{AllocError, Global};

// The atoms that an action names.
fn names_of(problem: &Problem, action: usize) -> u64 {
    problem
        .effects_of(action)
        .iter()
        .fold(problem.precondition_of(action), |names, e| {
            names | e.condition | e.add | e.delete
        })
}

// How often a step is answered with a need.
fn times(dues: &[Due], one: &Due) -> usize {
    dues.iter()
        .filter(|due| due.step == one.step && due.region.need == one.region.need)
        .count()
}

// Whether the state lies in one of the regions.
fn met(dues: &[Due], state: u64) -> bool {
    dues.iter().any(|due| due.region.met_by(state))
}

impl Query<'_> {
    // What is made due; nothing, if the work is not done soon. Its nodes have room.
    pub fn all_due(&self, heap: Global) -> Result<Option<Vec<Due>>, AllocError> {
        let Query {
            problem,
            aim,
            asked,
            ..
        } = *self;
        let mut nodes = [Node::default(); ROOM];
        let mut found = Vec::new(heap);
        let Some(mut part) = begin_work(&problem, aim, &mut nodes, 0) else {
            return Ok(None);
        };
        // rounds are counted, since work that goes on for too long is told as unfinished
        for _ in 0..10000u32 {
            match next_due(&problem, aim, &asked, &mut nodes, part) {
                Found::Made(due, left) => {
                    found.push(due)?;
                    part = Part {
                        start: 0,
                        count: left,
                    };
                }
                Found::Done => return Ok(Some(found)),
                Found::NoRoom(_) => unreachable!(),
            }
        }
        Ok(None)
    }

    // Whether a step is firm in a state and ends in a state of the aim.
    fn leads(&self, state: u64, step: u64) -> bool {
        matches!(self.problem.try_step(state, step), Ok(Some(end)) if self.aim.met_by(end))
    }

    // Whether some step leads from a state into the aim: all steps are tried.
    fn some_leads(&self, steps: u64, state: u64) -> bool {
        (0..steps).any(|step| self.leads(state, step))
    }

    // Whether a region names only atoms that the aim or the actions of the step name.
    fn named(&self, due: &Due) -> bool {
        let own = self.aim.need | self.aim.avoid;
        let names = members_of(due.step).fold(own, |names, action| {
            names | names_of(&self.problem, action as usize)
        });
        inside(due.region.need | due.region.avoid, names)
    }

    // Whether the step leads into the aim from every state of the region.
    fn sound(&self, due: &Due) -> bool {
        (0..self.states)
            .filter(|state| due.region.met_by(*state))
            .all(|state| self.leads(state, due.step))
            && self.named(due)
    }

    pub fn all_sound(&self, dues: &[Due]) -> bool {
        dues.iter().all(|due| self.sound(due))
    }

    // Whether each state that is asked for, and from which some step leads into the aim, lies in one of the regions.
    pub fn complete(&self, steps: u64, dues: &[Due]) -> bool {
        (0..self.states)
            .filter(|state| self.asked.asks(*state) && self.some_leads(steps, *state))
            .all(|state| met(dues, state))
    }

    // Whether no step is answered twice with one need, and the empty step only with the sets of the aim.
    pub fn once(&self, dues: &[Due]) -> bool {
        dues.iter().all(|due| {
            times(dues, due) == 1 && (due.step != 0 || due.region == self.aim)
        })
    }

    // Whether the regions have states that are asked for.
    pub fn none_outside(&self, dues: &[Due]) -> bool {
        dues.iter().all(|due| !self.asked.dismisses(due.region))
    }
}
