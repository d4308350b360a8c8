use problem::{ActionRow, EffectRow, Problem, Question};
use sets::Filled;
use text::{next_question, read};

// Rows for the lists that a text is read into, which are made over them where they are used. Those of the texts' check begin as marks.
#[derive(Drop)]
pub(crate) struct Rows {
    pub(crate) actions: [ActionRow; 64],
    pub(crate) effects: [EffectRow; 512],
}

impl Rows {
    pub(crate) fn new() -> Rows {
        Rows {
            actions: [ActionRow::default(); 64],
            effects: [EffectRow::default(); 512],
        }
    }
}

// Reads a problem and the first question about it, and calls `f` with both; nothing, where the text does not begin with them.
pub(crate) fn on_first_question<R, F: FnOnce(&Problem, Question) -> R>(
    text: &[u8],
    f: F,
) -> Option<R>
    requires { F.IsAlwaysCallable f }
{
    let mut rows = Rows::new();
    let mut actions = Filled::over(&mut rows.actions, 64);
    let mut effects = Filled::over(&mut rows.effects, 512);
    let taken = read(text, &mut actions, &mut effects).ok()?;
    let problem = taken.problem(actions.entries(), effects.entries()).ok()?;
    let asked = next_question(text, taken.bytes).ok()??;
    Some(f(&problem, asked.question))
}
