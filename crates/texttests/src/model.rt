ghost use Rattle.std.specs.Prelude.{◌≡◌, IfOk};
ghost use Rattle.text.specs.Texts.{Begins};
ghost use Rattle.texttests.specs.Model.{model};

use problem::{EffectRow, Refusal};
use text::BlankText;

// Writes the model problem: five atoms, two hands, first {0, 2}; check needs 0 and adds 1; post needs 1 and adds 4; sweep needs
// 0, deletes 0 and, if 2, adds 3 and deletes 2.
pub fn write_model(out: &mut [u8]) -> Result<usize, Refusal>
    ensures { IfOk result (λ n. (n ≡ 140) × Begins out.new n model) }
{
    let blank = BlankText::new();
    let sized = blank.size(5, 2, out)?;
    let started = sized.first(0b101, out)?;
    let check = started.action(0b1, out)?;
    let check = check.effect(
        EffectRow {
            condition: 0,
            add: 0b10,
            delete: 0,
        },
        out,
    )?;
    let post = check.action(0b10, out)?;
    let post = post.effect(
        EffectRow {
            condition: 0,
            add: 0b1_0000,
            delete: 0,
        },
        out,
    )?;
    let sweep = post.action(0b1, out)?;
    let sweep = sweep.effect(
        EffectRow {
            condition: 0,
            add: 0,
            delete: 0b1,
        },
        out,
    )?;
    let sweep = sweep.effect(
        EffectRow {
            condition: 0b100,
            add: 0b1000,
            delete: 0b100,
        },
        out,
    )?;
    let ended = sweep.end(out)?;
    Ok(ended.len)
}
