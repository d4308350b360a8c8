ghost use Rattle.std.specs.Prelude.{◌≡◌, ℕ, ◌+◌, ◌≤◌, List, length, ◌∷◌, ◌++◌, Ok, Err, IfOk, MatchResult};
ghost use Rattle.text.specs.Bytes.{bytes_of, put};
ghost use Rattle.text.specs.Records.{code_of};
ghost use Rattle.text.specs.Texts.{size_is, first_is, action_is, effect_is, end_is, item_text};
ghost use Rattle.text.specs.Readings.{Draft, nothing, more};
ghost use Rattle.text.specs.Writings.{blank_mark, sized_mark, started_mark, ended_mark, Wrote, Admits, Refused, Holds, HoldsWhole};

use crate::bytes::{put_bytes, put_set};
use crate::fits::{Misfit, action_fits, effect_fits, first_fits, size_fits};
use crate::record::Kind;
use problem::{EffectRow, Refusal};

// A text with no record yet. Each state of a text is moved into the next; the bytes are lent at each call.
#[derive(Drop)]
pub struct BlankText {
    len: usize,
}

// A text with its size.
#[derive(Drop)]
pub struct SizedText {
    len: usize,
    atoms: u8,
}

// A text with its first state, and with the actions so far: how many, and how many effects the latest has.
#[derive(Drop)]
pub struct StartedText {
    len: usize,
    atoms: u8,
    actions: usize,
    latest: usize,
}

// A whole text.
#[derive(Drop)]
pub struct EndedText {
    pub len: usize,
}

// A refusal, and the state as it was before the call.
#[derive(Drop)]
pub struct Back<T> {
    pub state: T,
    pub refusal: Refusal,
}

// Where the caller lets the state go, `?` keeps the refusal.
impl<T: Drop> From<Back<T>> for Refusal {
    ghost from_gives = { λ b r. r ≡ b.refusal };

    fn from(back: Back<T>) -> Refusal {
        back.refusal
    }
}

// Whether a record may be written: its values fit, and its `more` bytes have room behind the first `len` of `size`.
fn admits(fit: Result<(), Misfit>, size: usize, len: usize, more: usize) -> Result<(), Refusal>
    ensures { Admits fit size len more result }
{
    fit?;
    if size.checked_sub(more).is_some_and(|most| len <= most) {
        Ok(())
    } else {
        Err(Refusal::TooShort)
    }
}

// The state, where a record is admitted; else the refusal, with the state as it was.
// A function: a closure for `map_err` would take the state where the call goes on too.
fn admitted<T>(state: T, fit: Result<(), Refusal>) -> Result<T, Back<T>>
    ensures { MatchResult result
        (λ s. (s ≡ state) × (fit ≡ Ok tt))
        (λ b. (b.state ≡ state) × (fit ≡ Err b.refusal)) }
{
    match fit {
        Ok(()) => Ok(state),
        Err(refusal) => Err(Back { state, refusal }),
    }
}

// Writes a kind and a set.
fn put_set_record(out: &mut [u8], at: usize, kind: Kind, set: u64)
    requires { at + 9 ≤ length out.old }
    ensures { out.new ≡ put out.old at (code_of kind ∷ bytes_of 8 set) }
{
    put_bytes(out, at, &[kind as u8]);
    put_set(out, at + 1, set);
}

// Writes an effect.
fn put_effect(out: &mut [u8], at: usize, effect: EffectRow)
    requires { at + 25 ≤ length out.old }
    ensures { out.new ≡ put out.old at (item_text (effect_is effect)) }
{
    put_set_record(out, at, Kind::Effect, effect.condition);
    put_set(out, at + 9, effect.add);
    put_set(out, at + 17, effect.delete);
}

impl BlankText {
    pub fn new() -> BlankText
        ensures { (out : List ℕ) → Holds (blank_mark result) nothing out }
    {
        BlankText { len: 0 }
    }

    // Writes the size.
    pub fn size(self, atoms: u8, hands: u8, out: &mut [u8]) -> Result<SizedText, Back<BlankText>>
        ensures answer { MatchResult result
            (λ s. Wrote (blank_mark self) (sized_mark s) (size_is atoms hands) out.old out.new)
            (λ b. (b.state ≡ self) × Refused (blank_mark self) (size_is atoms hands) out.old out.new b.refusal) }
        ensures written { (d : Draft) → Holds (blank_mark self) d out.old
            → IfOk result (λ s. Holds (sized_mark s) (more d (size_is atoms hands)) out.new) }
    {
        let fit = admits(size_fits(atoms, hands), out.len(), self.len, 3);
        let text = admitted(self, fit)?;
        put_bytes(out, text.len, &[Kind::Size as u8, atoms, hands]);
        Ok(SizedText {
            len: text.len + 3,
            atoms,
        })
    }
}

impl SizedText {
    // Writes the first state.
    pub fn first(self, first: u64, out: &mut [u8]) -> Result<StartedText, Back<SizedText>>
        ensures answer { MatchResult result
            (λ s. Wrote (sized_mark self) (started_mark s) (first_is first) out.old out.new)
            (λ b. (b.state ≡ self) × Refused (sized_mark self) (first_is first) out.old out.new b.refusal) }
        ensures written { (d : Draft) → Holds (sized_mark self) d out.old
            → IfOk result (λ s. Holds (started_mark s) (more d (first_is first)) out.new) }
    {
        let fit = admits(first_fits(first, self.atoms), out.len(), self.len, 9);
        let text = admitted(self, fit)?;
        put_set_record(out, text.len, Kind::First, first);
        Ok(StartedText {
            len: text.len + 9,
            atoms: text.atoms,
            actions: 0,
            latest: 0,
        })
    }
}

impl StartedText {
    // Writes an action, with no effect yet.
    pub fn action(self, precondition: u64, out: &mut [u8]) -> Result<StartedText, Back<StartedText>>
        ensures answer { MatchResult result
            (λ s. Wrote (started_mark self) (started_mark s) (action_is precondition) out.old out.new)
            (λ b. (b.state ≡ self) × Refused (started_mark self) (action_is precondition) out.old out.new b.refusal) }
        ensures written { (d : Draft) → Holds (started_mark self) d out.old
            → IfOk result (λ s. Holds (started_mark s) (more d (action_is precondition)) out.new) }
    {
        let fits = action_fits(self.actions, precondition, self.atoms);
        let fit = admits(fits, out.len(), self.len, 9);
        let text = admitted(self, fit)?;
        put_set_record(out, text.len, Kind::Action, precondition);
        Ok(StartedText {
            len: text.len + 9,
            actions: text.actions + 1,
            latest: 0,
            ..text
        })
    }

    // Writes an effect of the latest action.
    pub fn effect(self, effect: EffectRow, out: &mut [u8]) -> Result<StartedText, Back<StartedText>>
        ensures answer { MatchResult result
            (λ s. Wrote (started_mark self) (started_mark s) (effect_is effect) out.old out.new)
            (λ b. (b.state ≡ self) × Refused (started_mark self) (effect_is effect) out.old out.new b.refusal) }
        ensures written { (d : Draft) → Holds (started_mark self) d out.old
            → IfOk result (λ s. Holds (started_mark s) (more d (effect_is effect)) out.new) }
    {
        let fit = if self.actions == 0 {
            Err(Refusal::WrongPlace)
        } else {
            let fits = effect_fits(self.latest, effect, self.atoms);
            admits(fits, out.len(), self.len, 25)
        };
        let text = admitted(self, fit)?;
        put_effect(out, text.len, effect);
        Ok(StartedText {
            len: text.len + 25,
            latest: text.latest + 1,
            ..text
        })
    }

    // Writes the end record.
    pub fn end(self, out: &mut [u8]) -> Result<EndedText, Back<StartedText>>
        ensures answer { MatchResult result
            (λ s. Wrote (started_mark self) (ended_mark self s) end_is out.old out.new)
            (λ b. (b.state ≡ self) × Refused (started_mark self) end_is out.old out.new b.refusal) }
        ensures written { (d : Draft) → Holds (started_mark self) d out.old
            → IfOk result (λ s. HoldsWhole s.len d out.new) }
    {
        let fit = admits(Ok(()), out.len(), self.len, 1);
        let text = admitted(self, fit)?;
        put_bytes(out, text.len, &[Kind::End as u8]);
        Ok(EndedText { len: text.len + 1 })
    }
}
