// Serves an honest server's turn on a fresh board, a round to a line of standard input: GROUP PLAN PRIVATE SEED ENTRY..
// Quote j carries the generator's power by SEED + j. What stands on the wires afterwards is opened and printed.
#![tactic(auto)]

mod turn;

use anyhow::anyhow;
use group::Group;
use kinds::GroupKind;
use modular::modulo23::RESIDUES_MODULO_23;
use polynomial::Polynomials;
use refusal::{Failure, Reason};
use std::alloc::Global;
use std::fmt;
use turn::{Round, serve_on};

// Serves on the plan of this number, and prints what the wires open to. Group, plan and round are no one struct: the plan is
// a number here, and a plan where the lists are lent.
fn answer_in<G: Group>(rt: &HostRuntime, group: &G, plan: u64, round: Round) -> anyhow::Result<()>
where
    G::Element: fmt::Display,
{
    match serve_on(rt.alloc(), group, plan, round) {
        Ok(opened) => {
            rt.print("opened")?;
            for element in opened.as_slice() {
                print!(rt; " {element}")?;
            }
            rt.println("")?;
        }
        Err(Failure::Refused(refusal)) => rt.println(refusal)?,
        Err(Failure::NoMemory(_)) => return Err(anyhow!("no memory")),
    }
    Ok(())
}

// The numbers of a line.
fn numbers_of(heap: Global, line: &str) -> anyhow::Result<Vec<u64>> {
    line.split_whitespace()
        .map(|word| Ok(word.parse::<u64>()?))
        .try_collect(heap)
}

// Answers one line.
fn answer(rt: &HostRuntime, text: &str) -> anyhow::Result<()> {
    let numbers = numbers_of(rt.alloc(), text)?;
    let [group, plan, private, seed, entries @ ..] = numbers.as_slice() else {
        return Ok(rt.println(Reason::ShortRecord.at(0))?);
    };
    let entries: Vec<usize> = entries
        .iter()
        .map(|entry| *entry as usize)
        .collect(rt.alloc())?;
    let round = Round {
        private: *private,
        seed: *seed,
        permutation: entries.as_slice(),
    };
    // a group is a type, with an element type of its own: no closure takes a function over types
    match GroupKind::try_from(*group) {
        Ok(GroupKind::ResiduesModulo23) => answer_in(rt, &RESIDUES_MODULO_23, *plan, round),
        Ok(GroupKind::BinaryPolynomials) => answer_in(rt, &Polynomials, *plan, round),
        Err(reason) => Ok(rt.println(reason.at(0))?),
    }
}

fn run(rt: &HostRuntime) -> anyhow::Result<()> {
    for line in rt.lines(rt.alloc()) {
        let line = line?;
        answer(rt, line.as_str())?;
    }
    Ok(())
}

fn main(rt: HostRuntime) -> anyhow::Result<()> {
    run(&rt)
}
