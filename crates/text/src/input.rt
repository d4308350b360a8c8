ghost use Rattle.text.specs.Inputs.{TakesInput};

use crate::checker::Taken;
use crate::fault::ProgramFault;
use crate::reader::read;
use problem::{ActionRow, EffectRow};
use sets::Filled;

// How many bytes the program takes.
const MOST: usize = 32768;

// Reads the problem with which the input of the program begins.
pub fn read_input(
    text: &[u8],
    actions: &mut Filled<ActionRow>,
    effects: &mut Filled<EffectRow>,
) -> Result<Taken, ProgramFault>
    ensures { TakesInput text.now actions.old actions.new effects.old effects.new result }
{
    if text.len() > MOST {
        return Err(ProgramFault::Long);
    }
    Ok(read(text, actions, effects)?)
}
