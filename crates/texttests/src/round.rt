ghost use Rattle.std.specs.Prelude.{◌≡◌, ℕ, ◌≤◌, List, length, take, MatchOption};
ghost use Rattle.text.specs.Texts.{Contents, contents, contents_of, Valid, problem_text, Begins};
ghost use Rattle.text.specs.Calls.{Roomy, gotten};

use crate::rows::{CHANGE, ROW};
use problem::{ActionRow, EffectRow, Problem};
use sets::Filled;
use text::{Taken, read, write_problem};

// Reads the problem that a text begins with and writes it again: how many bytes it has.
pub fn write_again(text: &[u8], out: &mut [u8]) -> Option<usize>
    ensures { MatchOption result
        ((c : Contents) (n : ℕ) → Valid c → Begins text.now n c → n ≤ length out.old → ⊥)
        (λ n. (n ≤ length text.now) × (take n out.new ≡ take n text.now)) }
{
    let mut action_rows = [ROW; 64];
    let mut effect_rows = [CHANGE; 512];
    let mut actions = Filled::over(&mut action_rows, 64);
    let mut effects = Filled::over(&mut effect_rows, 512);
    let taken = read(text, &mut actions, &mut effects).ok()?;
    let problem = taken.problem(actions.entries(), effects.entries()).ok()?;
    write_problem(&problem, out).ok()
}

// Writes a problem and reads it again: its numbers, with its rows in the lists.
pub fn read_again(
    problem: &Problem,
    out: &mut [u8],
    actions: &mut Filled<ActionRow>,
    effects: &mut Filled<EffectRow>,
) -> Option<Taken>
    ensures answer { MatchOption result
        (Roomy actions.old effects.old → length (problem_text (contents_of problem.now)) ≤ length out.old → ⊥)
        (λ t. gotten t actions.new effects.new ≡ contents_of problem.now) }
    ensures lent { (actions.new.rows.ghost_name ≡ actions.old.rows.ghost_name) × (effects.new.rows.ghost_name ≡ effects.old.rows.ghost_name) }
{
    write_problem(problem, out).ok()?;
    read(out, actions, effects).ok()
}
