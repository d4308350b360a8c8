use crate::round::{read_again, write_again};
use crate::rows::{CHANGE, ROW, kept_actions, kept_effects};
use crate::show::{show, show_outcome, show_taken};
use problem::{ActionRow, EffectRow, Problem};
use sets::Filled;
use std::io;
use text::{ProblemFault, read};

// Lists of so much room.
pub fn room(
    rt: &HostRuntime,
    text: &[u8],
    most_actions: usize,
    most_effects: usize,
) -> io::Result<()> {
    let mut action_rows = [ROW; 64];
    let mut effect_rows = [CHANGE; 512];
    let mut actions = Filled::over(&mut action_rows, most_actions);
    let mut effects = Filled::over(&mut effect_rows, most_effects);
    print!(rt; "room for {most_actions} and {most_effects}: ")?;
    let outcome = read(text, &mut actions, &mut effects).map_err(ProblemFault::report);
    show_outcome(rt, outcome, actions.len(), effects.len())
}

// How many entries of the lists keep their contents over a reading.
pub fn kept(rt: &HostRuntime, text: &[u8]) -> io::Result<()> {
    let mut action_rows = [ROW; 64];
    let mut effect_rows = [CHANGE; 512];
    {
        let mut actions = Filled::over(&mut action_rows, 64);
        let mut effects = Filled::over(&mut effect_rows, 512);
        let _ = read(text, &mut actions, &mut effects);
    }
    let actions = kept_actions(&action_rows);
    let effects = kept_effects(&effect_rows);
    println!(rt; "entries kept: {actions} and {effects}")
}

// Reads a text and writes it again into the bytes lent.
pub fn again(rt: &HostRuntime, text: &[u8], out: &mut [u8]) -> io::Result<()> {
    let room = out.len();
    print!(rt; "written again into {room} bytes: ")?;
    match write_again(text, out) {
        Some(n) => show(rt, &out[0..n.min(room)]),
        None => println!(rt; "nothing"),
    }
}

// Writes a problem of one action and reads it again.
pub fn back(rt: &HostRuntime) -> io::Result<()> {
    let row = [ActionRow {
        precondition: 2,
        first_effect: 0,
    }];
    let change = [EffectRow {
        condition: 1,
        add: 2,
        delete: 4,
    }];
    print!(rt; "read again: ")?;
    let Ok(problem) = Problem::new(3, 1, 7, &row, &change) else {
        return println!(rt; "nothing");
    };
    let mut out = [0u8; 256];
    let mut action_rows = [ROW; 64];
    let mut effect_rows = [CHANGE; 512];
    let mut actions = Filled::over(&mut action_rows, 64);
    let mut effects = Filled::over(&mut effect_rows, 512);
    match read_again(&problem, &mut out, &mut actions, &mut effects) {
        Some(taken) => show_taken(rt, taken, actions.len(), effects.len()),
        None => println!(rt; "nothing"),
    }
}
