// Drills comparators, one to a line of standard input: GROUP X KIND R1 R2 SEED.
#![tactic(auto)]

mod answering;
mod comparing;
mod drilling;
mod knowledge;
mod line;
mod task;

use drill::finding::{Finding, Reencryption};
use drilling::drill_task;
use group::{Exponent, Group};
use kinds::GroupKind;
use line::Line;
use modular::modulo23::RESIDUES_MODULO_23;
use plan::Setting;
use polynomial::Polynomials;
use refusal::{Failure, Reason};
use std::alloc::Global;
use std::fmt;
use task::Task;

// What is found, with exponents as they are posted, as it is printed.
#[derive(Clone, Copy)]
struct Found(Finding<u32>);

impl fmt::Display for Found {
    fn fmt<W: fmt::Write>(&self, f: &mut fmt::Formatter<W>) -> fmt::Result {
        match self.0 {
            Finding::Key(x) => write!(f, "key {x}"),
            Finding::Outputs(Reencryption { setting, r1, r2 }) => match setting {
                Setting::Straight => write!(f, "order straight {r1} {r2}"),
                Setting::Swapped => write!(f, "order swapped {r1} {r2}"),
            },
        }
    }
}

// Drills one task in a group.
fn drill_in<G: Group>(heap: Global, g: &G, task: Task) -> Result<Found, Failure>
where
    G::Exponent: Exponent<Posted = u32>,
{
    Ok(Found(drill_task(heap, g, task)?.post()))
}

// Drills the task of one line.
fn drill_line(heap: Global, text: &str) -> Result<Found, Failure> {
    let line = text.parse::<Line>().map_err(|why| why.at(0))?;
    // a group is a type, with an element type of its own: no closure takes a function over types
    match line.group {
        GroupKind::ResiduesModulo23 => drill_in(heap, &RESIDUES_MODULO_23, line.task),
        GroupKind::BinaryPolynomials => drill_in(heap, &Polynomials, line.task),
    }
}

fn run(rt: &HostRuntime) -> anyhow::Result<()> {
    for line in rt.lines(rt.alloc()) {
        let line = line?;
        match drill_line(rt.alloc(), line.as_str()) {
            Ok(found) => rt.println(found)?,
            Err(Failure::Refused(refusal)) => rt.println(refusal)?,
            Err(Failure::NoMemory(error)) => return Err(error.into()),
        }
    }
    Ok(())
}

fn main(rt: HostRuntime) -> anyhow::Result<()> {
    run(&rt)
}
