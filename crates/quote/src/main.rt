// Seals quotes, one to a line of standard input, re-encrypts them, and opens them again.
#![tactic(auto)]

mod sealing;

use kinds::GroupKind;
use modular::modulo23::RESIDUES_MODULO_23;
use polynomial::Polynomials;
use refusal::{Reason, Refusal};
use sealing::{Sealing, seal};
use std::fmt;
use std::str::{FromStr, SplitWhitespace};

// A line: the group, and what is to be sealed.
#[derive(Clone, Copy)]
struct Line {
    group: GroupKind,
    sealing: Sealing,
}

// The next word as a number of 32 bits. It is a line that the drill's program has too, for words of any type: a crate for
// this line alone is no plainer.
fn next_number(words: &mut SplitWhitespace<'_>) -> Option<u32> {
    words.next()?.parse::<u32>().ok()
}

// The five numbers of a line; none where it has not just these.
fn numbers_of(text: &str) -> Option<[u32; 5]> {
    let mut words = text.split_whitespace();
    let mut numbers = [0; 5];
    for number in &mut numbers {
        *number = next_number(&mut words)?;
    }
    words.next().is_none().then_some(numbers)
}

// A line that has not just five numbers is short of its fields; then its group must be one that is known.
impl FromStr for Line {
    type Err = Reason;

    fn from_str(text: &str) -> Result<Line, Reason> {
        let [group, private, message, gamma, r] = numbers_of(text).ok_or(Reason::ShortRecord)?;
        Ok(Line {
            group: GroupKind::try_from(group as u64)?,
            sealing: Sealing {
                private,
                message,
                gamma,
                r,
            },
        })
    }
}

// Prints what was sealed, or the refusal: a refusal is printed as the line's answer, and is no error of the program.
fn print<D: fmt::Display + Drop>(
    rt: &HostRuntime,
    answer: Result<D, Refusal>,
) -> anyhow::Result<()> {
    match answer {
        Ok(quote) => rt.println(quote)?,
        Err(refusal) => rt.println(refusal)?,
    }
    Ok(())
}

// Answers one line.
fn answer(rt: &HostRuntime, text: &str) -> anyhow::Result<()> {
    // by a match and not by `?`: a refusal is printed as the line's answer, and is no error of the program
    let line = match text.parse::<Line>() {
        Ok(line) => line,
        Err(reason) => return Ok(rt.println(reason.at(0))?),
    };
    // a group is a type, with an element type of its own: no closure takes a function over types
    match line.group {
        GroupKind::ResiduesModulo23 => print(rt, seal(&RESIDUES_MODULO_23, line.sealing)),
        GroupKind::BinaryPolynomials => print(rt, seal(&Polynomials, line.sealing)),
    }
}

fn run(rt: &HostRuntime) -> anyhow::Result<()> {
    for line in rt.lines(rt.alloc()) {
        let line = line?;
        answer(rt, line.as_str())?;
    }
    Ok(())
}

fn main(rt: HostRuntime) -> anyhow::Result<()> {
    run(&rt)
}
