use crate::record::{Sheet, put_bytes, put_record};
use crate::show::{show, show_question};
use std::io;

// The text, cut at every byte.
pub fn cuts(rt: &HostRuntime, text: &[u8]) -> io::Result<()> {
    // the number is printed, and is the length of the part
    for n in 0..text.len() {
        print!(rt; "cut {n}: ")?;
        show(rt, &text[0..n])?;
    }
    Ok(())
}

// Each kind behind the first `at` bytes of a text, with a body and without one.
pub fn kinds(rt: &HostRuntime, text: &[u8], at: usize) -> io::Result<()> {
    let front = &text[0..at.min(text.len())];
    // the number is the byte of the kind, here and below
    for kind in 0..8u8 {
        let mut made = Sheet::new();
        put_bytes(&mut made, front);
        put_bytes(&mut made, &[kind]);
        print!(rt; "kind {kind} at {at}, cut: ")?;
        show(rt, &made)?;
        put_bytes(&mut made, &[0; 24]);
        print!(rt; "kind {kind} at {at}, whole: ")?;
        show(rt, &made)?;
    }
    Ok(())
}

// Other numbers of atoms and hands.
pub fn size(rt: &HostRuntime, text: &[u8], atoms: u8, hands: u8) -> io::Result<()> {
    let mut made = Sheet::new();
    put_bytes(&mut made, text);
    for (place, number) in made.as_mut_slice().iter_mut().skip(1).zip([atoms, hands]) {
        *place = number;
    }
    print!(rt; "{atoms} atoms, {hands} hands: ")?;
    show(rt, &made)
}

// So many actions, the last with so many effects.
pub fn counts(rt: &HostRuntime, actions: usize, effects: usize) -> io::Result<()> {
    let mut made = Sheet::new();
    put_bytes(&mut made, &[1, 1, 1]);
    put_record(&mut made, 2, &[0]);
    for _ in 0..actions {
        put_record(&mut made, 3, &[0]);
    }
    for _ in 0..effects {
        put_record(&mut made, 4, &[0, 0, 0]);
    }
    put_bytes(&mut made, &[5]);
    print!(rt; "{actions} actions, {effects} effects: ")?;
    show(rt, &made)
}

// One set in each place in turn: first state, precondition, condition, add and delete.
pub fn sets(rt: &HostRuntime, atoms: u8, set: u64) -> io::Result<()> {
    // the number is printed, and says which of five values the set is
    for place in 0..5usize {
        let mut values = [0u64; 5];
        values[place] = set;
        let mut made = Sheet::new();
        put_bytes(&mut made, &[1, atoms, 1]);
        put_record(&mut made, 2, &values[0..1]);
        put_record(&mut made, 3, &values[1..2]);
        put_record(&mut made, 4, &values[2..5]);
        put_bytes(&mut made, &[5]);
        print!(rt; "{atoms} atoms, set {set} in place {place}: ")?;
        show(rt, &made)?;
    }
    Ok(())
}

// Bytes behind the problem.
pub fn trailing(rt: &HostRuntime, text: &[u8]) -> io::Result<()> {
    let mut made = Sheet::new();
    put_bytes(&mut made, text);
    put_bytes(&mut made, &[255, 0, 5, 1]);
    print!(rt; "trailing bytes: ")?;
    show(rt, &made)
}

// Each kind behind the problem, with a body and without one.
pub fn questions(rt: &HostRuntime, text: &[u8]) -> io::Result<()> {
    for kind in 0..8u8 {
        let mut made = Sheet::new();
        put_bytes(&mut made, text);
        put_bytes(&mut made, &[kind]);
        print!(rt; "behind it kind {kind}, cut: ")?;
        show_question(rt, &made, text.len())?;
        put_bytes(&mut made, &[9; 21]);
        print!(rt; "behind it kind {kind}, whole: ")?;
        show_question(rt, &made, text.len())?;
    }
    print!(rt; "behind it nothing: ")?;
    show_question(rt, text, text.len())
}

// A question as a user would put it, and the end behind it.
pub fn one_question(rt: &HostRuntime) -> io::Result<()> {
    let mut made = Sheet::new();
    put_record(&mut made, 6, &[0b1_1000, 0b100]);
    put_bytes(&mut made, &[8, 0, 0, 19, 136]);
    print!(rt; "question: ")?;
    show_question(rt, &made, 0)?;
    print!(rt; "next: ")?;
    show_question(rt, &made, 22)
}
