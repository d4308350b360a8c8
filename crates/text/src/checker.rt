ghost use Rattle.std.specs.Prelude.{◌≡◌, ℕ, ◌+◌, ◌<◌, ◌≤◌, List, [], length, MatchResult};
ghost use Rattle.problem.specs.declared.rows.ActionRow.{ActionRow as Row};
ghost use Rattle.problem.specs.declared.rows.EffectRow.{EffectRow as Change};
ghost use Rattle.text.specs.Records.{kind_of, body_of, Stands};
ghost use Rattle.text.specs.Texts.{Contents, contents, size_is, first_is, action_is, effect_is};
ghost use Rattle.text.specs.Readings.{InPlace, draft, nothing, Outcome, whole, faulty, Reads};
ghost use Rattle.text.specs.Filling.{opening};
ghost use Rattle.text.specs.Counting.{scaled, begun, Counts};

use crate::bytes::{effect_in, set_at};
use crate::fault::ProblemFault;
use crate::fits::{action_fits, effect_fits, first_fits, size_fits};
use crate::place::Place;
use crate::record::{Found, Record, kind_at, record_at};
use problem::EffectRow;

// What was read: the numbers of a problem, and how many bytes it took.
#[derive(Clone, Copy)]
pub struct Taken {
    pub atoms: u8,
    pub hands: u8,
    pub first: u64,
    pub bytes: usize,
}

// How many atoms and hands a problem has.
#[derive(Clone, Copy)]
pub(crate) struct Size {
    pub(crate) atoms: u8,
    pub(crate) hands: u8,
}

// How far the actions have come: how many there are, and how many effects the latest has.
#[derive(Clone, Copy)]
pub(crate) struct Tally {
    place: Place,
    actions: usize,
    latest: usize,
}

impl Tally {
    // One action more.
    fn action(self, at: usize, precondition: u64, atoms: u8) -> Result<Tally, ProblemFault>
        ensures { Counts self atoms at (action_is precondition) result }
    {
        action_fits(self.actions, precondition, atoms).map_err(|misfit| misfit.fault(at))?;
        Ok(Tally {
            place: Place::Acted,
            actions: self.actions + 1,
            latest: 0,
        })
    }

    // One effect of the latest action more.
    fn effect(self, at: usize, effect: EffectRow, atoms: u8) -> Result<Tally, ProblemFault>
        ensures { Counts self atoms at (effect_is effect) result }
    {
        effect_fits(self.latest, effect, atoms).map_err(|misfit| misfit.fault(at))?;
        Ok(Tally {
            place: Place::Acted,
            latest: self.latest + 1,
            ..self
        })
    }
}

// The record at `at`, if it may stand there.
fn record_in<'a>(text: &'a [u8], at: usize, place: Place) -> Result<Found<'a>, ProblemFault>
    ensures { MatchResult result
        (λ f. (f.at ≡ at) × Stands text.now f × InPlace place (kind_of f.record))
        (λ e. (c : Contents) → Reads text.now at (draft place c) (faulty e)) }
{
    if at >= text.len() {
        return Err(ProblemFault::NoEnd(text.len()));
    }
    let kind = kind_at(text, at)?;
    if !place.takes(kind) {
        return Err(ProblemFault::Place(at));
    }
    Ok(record_at(text, at)?)
}

// The size, with which a problem begins.
fn check_size(text: &[u8]) -> Result<Size, ProblemFault>
    ensures { MatchResult result
        (λ z. (o : Outcome) → Reads text.now 3 (scaled z) o → Reads text.now 0 nothing o)
        (λ e. Reads text.now 0 nothing (faulty e)) }
{
    let found = record_in(text, 0, Place::Start)?;
    let Record::Size(body) = found.record else {
        unreachable!();
    };
    let size = Size {
        atoms: body[0],
        hands: body[1],
    };
    size_fits(size.atoms, size.hands).map_err(|misfit| misfit.fault(0))?;
    Ok(size)
}

// The first state, after the size.
fn check_first(text: &[u8], size: Size) -> Result<u64, ProblemFault>
    ensures { MatchResult result
        (λ s. (o : Outcome) → Reads text.now 12 (begun size s) o → Reads text.now 3 (scaled size) o)
        (λ e. Reads text.now 3 (scaled size) (faulty e)) }
{
    let found = record_in(text, 3, Place::Sized)?;
    let Record::First(body) = found.record else {
        unreachable!();
    };
    let first = set_at(body, 0);
    first_fits(first, size.atoms).map_err(|misfit| misfit.fault(3))?;
    Ok(first)
}

// The actions with their effects, up to the end record: where that ends.
fn check_rows(text: &[u8], size: Size, first: u64) -> Result<usize, ProblemFault>
    ensures { MatchResult result
        (λ n. (rows : List Row) × (effects : List Change) × Reads text.now 12 (begun size first) (whole (contents size.atoms size.hands first rows effects) n))
        (λ e. Reads text.now 12 (begun size first) (faulty e)) }
{
    let mut at = 12;
    let mut tally = Tally {
        place: Place::Started,
        actions: 0,
        latest: 0,
    };
    // a cursor: where the next record begins, and whether it may stand there, is known once this one is read
    loop {
        let found = record_in(text, at, tally.place)?;
        tally = match found.record {
            Record::Action(body) => tally.action(at, set_at(body, 0), size.atoms)?,
            Record::Effect(body) => tally.effect(at, effect_in(body), size.atoms)?,
            Record::End => return Ok(found.next),
            _ => unreachable!(),
        };
        at = found.next;
    }
}

// Whether a text begins with a problem, and with which numbers; nothing is written.
pub(crate) fn check(text: &[u8]) -> Result<Taken, ProblemFault>
    ensures { MatchResult result
        (λ t. (rows : List Row) × (effects : List Change)
        × Reads text.now 12 (opening t.atoms t.hands t.first) (whole (contents t.atoms t.hands t.first rows effects) t.bytes)
        × Reads text.now 0 nothing (whole (contents t.atoms t.hands t.first rows effects) t.bytes))
        (λ e. Reads text.now 0 nothing (faulty e)) }
{
    let size = check_size(text)?;
    let first = check_first(text, size)?;
    let bytes = check_rows(text, size, first)?;
    Ok(Taken {
        atoms: size.atoms,
        hands: size.hands,
        first,
        bytes,
    })
}
