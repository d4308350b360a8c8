#![tactic(auto)]
// Texts that are whole, damaged or too long, and what is found in each: one line a case.
mod cases;
mod lists;
mod model;
mod record;
mod round;
mod rows;
mod show;

use model::write_model;
use std::io;

// The cases that start from the text of the model problem.
fn on_model(rt: &HostRuntime, text: &[u8]) -> io::Result<()> {
    print!(rt; "whole: ")?;
    show::show(rt, text)?;
    cases::trailing(rt, text)?;
    cases::cuts(rt, text)?;
    for at in [0usize, 3, 12, 21, 46, 139] {
        cases::kinds(rt, text, at)?;
    }
    for (atoms, hands) in [
        (0u8, 2u8),
        (65, 2),
        (5, 0),
        (5, 5),
        (255, 255),
        (64, 4),
        (5, 1),
        (4, 2),
    ] {
        cases::size(rt, text, atoms, hands)?;
    }
    cases::questions(rt, text)
}

// The cases on the lists and on writing again.
fn on_lists(rt: &HostRuntime, text: &[u8]) -> io::Result<()> {
    lists::room(rt, text, 64, 512)?;
    lists::room(rt, text, 63, 512)?;
    lists::room(rt, text, 64, 511)?;
    lists::kept(rt, text)?;
    lists::kept(rt, &text[0..text.len().saturating_sub(1)])?;
    lists::again(rt, text, &mut [0; 140])?;
    lists::again(rt, text, &mut [0; 139])?;
    lists::back(rt)
}

// The cases that are put together on their own.
fn on_others(rt: &HostRuntime) -> io::Result<()> {
    for (actions, effects) in [
        (0usize, 0usize),
        (0, 1),
        (64, 0),
        (65, 0),
        (64, 8),
        (1, 8),
        (1, 9),
    ] {
        cases::counts(rt, actions, effects)?;
    }
    cases::sets(rt, 1, 1)?;
    cases::sets(rt, 1, 2)?;
    cases::sets(rt, 63, 1 << 62)?;
    cases::sets(rt, 63, 1 << 63)?;
    cases::sets(rt, 64, 1 << 63)?;
    cases::one_question(rt)?;
    let long = [0u8; 32769];
    print!(rt; "32769 bytes: ")?;
    show::show(rt, &long)?;
    print!(rt; "32768 bytes: ")?;
    show::show(rt, &long[0..32768])
}

fn main(rt: HostRuntime) -> io::Result<()> {
    let mut out = [0u8; 256];
    match write_model(&mut out) {
        Ok(n) => {
            let text = &out[0..n];
            on_model(&rt, text)?;
            on_lists(&rt, text)?;
            on_others(&rt)
        }
        Err(refusal) => {
            let number = refusal.number();
            println!(rt; "the model is refused: {number}")
        }
    }
}
