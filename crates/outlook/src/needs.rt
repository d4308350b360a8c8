ghost use Rattle.std.specs.Prelude.{ℕ, ◌≤◌, T, Decides};
ghost use Rattle.sets.specs.Sets.{Has, Within};
ghost use Rattle.graph.specs.Questions.{Answered};
ghost use Rattle.outlook.specs.Outlooks.{Barred};

use crate::outlook::Outlook;
use graph::check_question;
use problem::Refusal;
use sets::{apart, members_of, within};

// Whether a member of a set is barred with a member at a level.
fn barred_in<O: Outlook>(outlook: &O, level: u8, atom: u32, set: u64) -> bool
    requires low { level ≤ 32 }
    requires known { Within (O.Outlook.task outlook.now).atoms set }
    requires member { Has set atom }
    ensures { Decides result ((k : ℕ) × Has set k × T ((O.Outlook.view outlook.now).bars level atom k)) }
{
    outlook
        .barred_with(level, atom as u8)
        .is_ok_and(|row| !apart(row, set))
}

// Whether a set holds a pair that is barred at a level: one row question an atom.
pub fn holds_barred<O: Outlook>(outlook: &O, level: u8, set: u64) -> Result<bool, Refusal>
    ensures { Answered level (Within (O.Outlook.task outlook.now).atoms set)
        (λ x. Decides x (Barred (O.Outlook.view outlook.now) level set)) result }
{
    check_question(level, within(set, outlook.problem().atoms as usize))?;
    Ok(members_of(set).any(|atom| barred_in(outlook, level, atom, set)))
}
