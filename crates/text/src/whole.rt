ghost use Rattle.std.specs.Prelude.{◌≡◌, ℕ, ◌+◌, ◌<◌, ◌≤◌, List, length, take, IfOk, MatchResult};
ghost use Rattle.sets.specs.Sets.{Within};
ghost use Rattle.problem.specs.Actions.{Action};
ghost use Rattle.problem.specs.Rows.{EffectsNamed};
ghost use Rattle.problem.specs.Problems.{task_of};
ghost use Rattle.problem.specs.declared.refusal.Refusal.TheVariants.{TooShort};
ghost use Rattle.text.specs.Bytes.{put};
ghost use Rattle.text.specs.Texts.{contents_of, action_text, actions_text, problem_text, Begins};
ghost use Rattle.text.specs.Readings.{nothing, whole, Reads};
ghost use Rattle.text.specs.Appending.{effects_text, Appends};

use crate::writer::{BlankText, StartedText};
use problem::{EffectRow, Problem, Refusal};

// How many bytes the text of a problem has.
pub fn text_length(problem: &Problem) -> usize
    ensures { result ≡ length (problem_text (contents_of problem.now)) }
{
    13 + 9 * problem.actions.len() + 25 * problem.effects.len()
}

// Writes the effects of the latest action, which has none yet.
fn write_effects(started: StartedText, effects: &[EffectRow], out: &mut [u8]) -> StartedText
    requires acted { 0 < started.actions }
    requires fresh { started.latest ≡ 0 }
    requires few { length effects.now ≤ 8 }
    requires named { EffectsNamed started.atoms effects.now }
    requires room { started.len + length (effects_text effects.now) ≤ length out.old }
    ensures { Appends started result (effects_text effects.now) 0 out.old out.new }
{
    let mut text = started;
    for e in effects {
        text = text.effect(*e, out).unwrap();
    }
    text
}

// Writes an action with its effects.
fn write_action(
    started: StartedText,
    precondition: u64,
    effects: &[EffectRow],
    out: &mut [u8],
) -> StartedText
    requires few_actions { started.actions < 64 }
    requires within { Within started.atoms precondition }
    requires few { length effects.now ≤ 8 }
    requires named { EffectsNamed started.atoms effects.now }
    requires room { started.len + length (action_text (record { precondition = precondition; effects = effects.now })) ≤ length out.old }
    ensures { Appends started result (action_text (record { precondition = precondition; effects = effects.now })) 1 out.old out.new }
{
    let acted = started.action(precondition, out).unwrap();
    write_effects(acted, effects, out)
}

// Writes the actions of a problem, each with its effects.
fn write_actions(started: StartedText, problem: &Problem, out: &mut [u8]) -> StartedText
    requires fresh { started.actions ≡ 0 }
    requires atoms { started.atoms ≡ problem.now.atoms }
    requires room { started.len + length (actions_text (task_of problem.now).at (task_of problem.now).count) ≤ length out.old }
    ensures { Appends started result (actions_text (task_of problem.now).at (task_of problem.now).count)
        (task_of problem.now).count out.old out.new }
{
    let mut text = started;
    for (k, row) in problem.actions.iter().enumerate() {
        text = write_action(text, row.precondition, problem.effects_of(k), out);
    }
    text
}

// Writes a whole problem, from the first byte on: how many bytes its text has. Bytes that are too few are refused first.
pub fn write_problem(problem: &Problem, out: &mut [u8]) -> Result<usize, Refusal>
    ensures answer { MatchResult result
        (λ n. (n ≡ length (problem_text (contents_of problem.now))) × (n ≤ length out.old)
        × (out.new ≡ put out.old 0 (problem_text (contents_of problem.now))))
        (λ e. (e ≡ TooShort) × (length out.old < length (problem_text (contents_of problem.now))) × (out.new ≡ out.old)) }
    ensures back { IfOk result (λ n. Reads out.new 0 nothing (whole (contents_of problem.now) n)) }
    ensures again { (text : List ℕ) (k : ℕ) → Begins text k (contents_of problem.now)
        → IfOk result (λ n. (n ≡ k) × (take n out.new ≡ take k text)) }
{
    if out.len() < text_length(problem) {
        return Err(Refusal::TooShort);
    }
    // a problem's values fit and there is room, so no record is refused
    let sized = BlankText::new()
        .size(problem.atoms, problem.hands, out)
        .unwrap();
    let started = sized.first(problem.first, out).unwrap();
    let acted = write_actions(started, problem, out);
    let ended = acted.end(out).unwrap();
    Ok(ended.len)
}
