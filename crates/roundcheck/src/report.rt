// What the check of a file answers: a line for each record that was taken, and how it ended.
ghost use Rattle.std.specs.Prelude.{◌≡◌, IfOk, Some, string_bytes};
ghost use Rattle.roundcheck.specs.Finishing.{ComesTo};
ghost use Rattle.roundcheck.specs.Texts.{line_text, verdict_text, ending_text, report_text};

use board::verdict::{Standing, Verdict};
use plan::Comparator;
use refusal::{Failure, Refusal};
use roundfile::parts::{Opening, Post};
use std::alloc::{AllocError, Global};
use std::fmt;

#[derive(Clone, Copy)]
pub enum Line {
    Round(Opening),
    // the wire, and the codes as they were posted
    Post(usize, Post),
    Close,
    // the server, the comparator's number, and its wires
    Step(usize, usize, Comparator),
    // the server
    Expel(usize),
}

// What comes of a file: its lines, and what is answered at its end, or the refusal.
#[derive(Drop)]
pub struct Finished<A> {
    pub lines: Vec<Line>,
    pub ending: Result<A, Refusal>,
}

// What comes of a file that is checked: at its end it is answered how the round stands.
pub type Report = Finished<Standing>;

impl<A> Finished<A> {
    // These lines, and the ending that was come to.
    pub(crate) fn of(lines: Vec<Line>, ended: Result<A, Failure>) -> Result<Finished<A>, AllocError>
        ensures { IfOk result (λ finished. (finished.lines.items ≡ lines.items) × ComesTo ended finished.ending) }
    {
        let ending = match ended {
            Ok(answer) => Ok(answer),
            Err(Failure::Refused(refusal)) => Err(refusal),
            Err(Failure::NoMemory(error)) => return Err(error),
        };
        Ok(Finished { lines, ending })
    }
}

impl Finished<Standing> {
    // All that is printed of a round: its lines, and then its ending.
    pub fn text(&self, heap: Global) -> Result<String, fmt::Error>
        ensures { IfOk result (λ text. string_bytes text ≡ report_text self.now.lines.items self.now.ending) }
    {
        let mut text = String::new(heap);
        for line in self.lines.as_slice() {
            text.writeln(*line)?;
        }
        text.writeln(Ending(self.ending))?;
        Ok(text)
    }
}

impl fmt::Display for Line {
    ghost output = { λ x. Some (line_text x) };

    fn fmt<W: fmt::Write>(&self, f: &mut fmt::Formatter<W>) -> fmt::Result {
        match *self {
            Line::Round(opening) => {
                let Opening {
                    group,
                    plan,
                    wires,
                    servers,
                    ..
                } = opening;
                write!(f, "round {group} {plan} {wires} {servers}")
            }
            Line::Post(wire, post) => {
                let Post { alpha, beta } = post;
                write!(f, "post {wire} {alpha} {beta}")
            }
            Line::Close => write!(f, "close"),
            Line::Step(server, comparator, on) => {
                let Comparator { first, second } = on;
                write!(f, "step {server} {comparator} {first} {second}")
            }
            Line::Expel(server) => write!(f, "expel {server}"),
        }
    }
}

// The word of a verdict. It is no Display: the type is the board's, and the words are the report's.
fn word_of(verdict: Verdict) -> &'static str
    ensures { result.now ≡ verdict_text verdict }
{
    match verdict {
        Verdict::Stands => "stands",
        Verdict::Void => "void",
        Verdict::Unfinished => "open",
    }
}

// A report's ending as it prints: the last line of a round.
#[derive(Clone, Copy)]
pub struct Ending(pub Result<Standing, Refusal>);

impl fmt::Display for Ending {
    ghost output = { λ x. Some (ending_text x.0) };

    fn fmt<W: fmt::Write>(&self, f: &mut fmt::Formatter<W>) -> fmt::Result {
        match self.0 {
            Ok(standing) => {
                let Standing {
                    verdict,
                    completed,
                    servers,
                } = standing;
                let word = word_of(verdict);
                write!(f, "{word} {completed} {servers}")
            }
            Err(refusal) => write!(f, "{refusal}"),
        }
    }
}
