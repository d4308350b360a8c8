ghost use Rattle.std.specs.Prelude.{◌≡◌, ◌++◌, IfOk, string_bytes, codes, decimal, OnOk};
ghost use Rattle.plain.specs.Lines.{WrittenBehind};

use sets::members_of;
use std::alloc::{AllocError, Global};

// Writes a number behind a line, with a space before it.
fn put_number(heap: Global, line: &mut String, n: u32) -> Result<(), AllocError>
    ensures { OnOk result (string_bytes line.new ≡ string_bytes line.old ++ (codes " " ++ decimal n)) }
{
    let word = format!(in heap; " {n}")?;
    line.push_str(word.as_str())
}

// Writes the members of a set behind a line, in rising order.
fn put_members(heap: Global, line: &mut String, set: u64) -> Result<(), AllocError>
    ensures { OnOk result (WrittenBehind (string_bytes line.old) set (string_bytes line.new)) }
{
    for member in members_of(set) {
        put_number(heap, line, member)?;
    }
    Ok(())
}

// The line that shows a step: the numbers of its actions in rising order.
pub fn step_line(heap: Global, step: u64) -> Result<String, AllocError>
    ensures { IfOk result (λ line. WrittenBehind (codes "step") step (string_bytes line)) }
{
    let mut line = String::from_str(heap, "step")?;
    put_members(heap, &mut line, step)?;
    Ok(line)
}
