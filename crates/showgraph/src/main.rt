#![tactic(auto)]
// Prints the planning graph of the model valuation, level by level: the facts, and the pairs of them that are exclusive.
use anyhow::anyhow;
use chance::{MODEL_ACTIONS, MODEL_ATOMS, MODEL_EFFECTS, MODEL_FIRST, MODEL_HANDS};
use graph::Graph;
use problem::{Problem, Refusal};
use sets::members_of;

// Why a call declines, as an error of the program; no From, since both types are of other crates.
fn declined(refusal: Refusal) -> anyhow::Error {
    anyhow!("refused {}", refusal.number())
}

// The atoms of a set, each after a space.
fn show_set(rt: &impl Print, set: u64) -> anyhow::Result<()> {
    for atom in members_of(set) {
        print!(rt; " {atom}")?;
    }
    Ok(())
}

// The pairs of an atom and a higher one of a set, each after a space.
fn show_pairs(rt: &impl Print, atom: u32, set: u64) -> anyhow::Result<()> {
    for other in members_of(set).filter(|other| atom < *other) {
        print!(rt; " {atom}-{other}")?;
    }
    Ok(())
}

// One level in one line.
fn show_level(rt: &impl Print, graph: &Graph, atoms: u8, level: u8) -> anyhow::Result<()> {
    print!(rt; "level {level}: facts")?;
    show_set(rt, graph.facts_at(level).map_err(declined)?)?;
    print!(rt; ", exclusive")?;
    // the rows of all atoms, also of those that are no facts of the level
    for atom in 0..atoms {
        let others = graph.exclusive_with(level, atom).map_err(declined)?;
        show_pairs(rt, u32::from(atom), others)?;
    }
    println!(rt; "")?;
    Ok(())
}

// The levels of the graph of a problem with so many atoms.
fn show_graph(rt: &impl Print, graph: &Graph, atoms: u8) -> anyhow::Result<()> {
    // levels are asked for by their numbers
    for level in 0..=32 {
        show_level(rt, graph, atoms, level)?;
    }
    match graph.closing() {
        Some(level) => println!(rt; "closing level {level}")?,
        None => println!(rt; "no closing level")?,
    }
    Ok(())
}

fn main(rt: HostRuntime) -> anyhow::Result<()> {
    // the rows lie on the stack: this program uses no heap
    let (actions, effects) = (MODEL_ACTIONS, MODEL_EFFECTS);
    let problem = Problem::new(MODEL_ATOMS, MODEL_HANDS, MODEL_FIRST, &actions, &effects).map_err(
        declined,
    )?;
    show_graph(&rt, &Graph::build(&problem), problem.atoms)
}
