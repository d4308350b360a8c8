ghost use Rattle.std.specs.Prelude.{◌≡◌, ℕ, ◌≤◌, List, [], MatchResult};
ghost use Rattle.problem.specs.declared.rows.ActionRow.{ActionRow as Row};
ghost use Rattle.problem.specs.declared.rows.EffectRow.{EffectRow as Change};
ghost use Rattle.sets.specs.Lists.{room_of};
ghost use Rattle.text.specs.Texts.{Contents, contents, Valid, Begins};
ghost use Rattle.text.specs.Readings.{Reads, Outcome, whole, nothing};
ghost use Rattle.text.specs.Filling.{Refilled, opening};
ghost use Rattle.text.specs.Calls.{Roomy, Took, Left, told, Gives};

use crate::bytes::{effect_in, set_at};
use crate::checker::{Taken, check};
use crate::fault::ProblemFault;
use crate::record::{Record, record_at};
use problem::{ActionRow, EffectRow};
use sets::Filled;

// Takes the actions and effects that stand from `from` on into the lists, in place of what these held.
fn fill(text: &[u8], from: usize, actions: &mut Filled<ActionRow>, effects: &mut Filled<EffectRow>)
    ensures { (m h s n : ℕ) (rows : List Row) (changes : List Change)
        → 64 ≤ room_of actions.old → 512 ≤ room_of effects.old → Valid (contents m h s [] [])
        → Reads text.now from (opening m h s) (whole (contents m h s rows changes) n)
        → Refilled actions.old actions.new rows × Refilled effects.old effects.new changes }
{
    actions.clear();
    effects.clear();
    let mut at = from;
    // a cursor: the next record begins where this one ends
    while let Ok(found) = record_at(text, at) {
        match found.record {
            Record::Action(body) => {
                let row = ActionRow {
                    precondition: set_at(body, 0),
                    first_effect: effects.len(),
                };
                actions.push(row);
            }
            Record::Effect(body) => {
                effects.push(effect_in(body));
            }
            _ => break,
        }
        at = found.next;
    }
}

// Reads the problem that a text begins with: its rows go into the lists, in place of what these held, and its numbers are
// answered. The whole problem is checked first, so that a text with a fault leaves both lists alike.
pub fn read(
    text: &[u8],
    actions: &mut Filled<ActionRow>,
    effects: &mut Filled<EffectRow>,
) -> Result<Taken, ProblemFault>
    ensures answer { MatchResult result
        (Took text.now actions.old actions.new effects.old effects.new)
        (Left text.now actions.old actions.new effects.old effects.new) }
    ensures one { Roomy actions.old effects.old → (o : Outcome) → Reads text.now 0 nothing o
        → o ≡ told result actions.new effects.new }
    ensures exact { Roomy actions.old effects.old → (c : Contents) (n : ℕ) → Valid c → Begins text.now n c
        → Gives c n result actions.new effects.new }
{
    if actions.room() < 64 || effects.room() < 512 {
        return Err(ProblemFault::Lists);
    }
    let taken = check(text)?;
    fill(text, 12, actions, effects);
    Ok(taken)
}
