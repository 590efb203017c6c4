// A line of the input: GROUP X KIND R1 R2 SEED.
use crate::task::{Kind, Task};
use kinds::GroupKind;
use refusal::Reason;
use std::str::{FromStr, SplitWhitespace};

// A task, and the group that it is in.
#[derive(Clone, Copy)]
pub struct Line {
    pub group: GroupKind,
    pub task: Task,
}

// The next word, as what it names.
fn next_word<T: FromStr>(words: &mut SplitWhitespace<'_>) -> Option<T>
where
    T::Err: Drop,
{
    words.next()?.parse().ok()
}

// The group's number and the task; none where one of the six words is missing or unfit.
fn read_words(words: &mut SplitWhitespace<'_>) -> Option<(u64, Task)> {
    let group = next_word(words)?;
    let private = next_word(words)?;
    let kind = next_word::<Kind>(words)?;
    let r1 = next_word(words)?;
    let r2 = next_word(words)?;
    let seed = next_word(words)?;
    let task = Task {
        kind,
        private,
        r1,
        r2,
        seed,
    };
    Some((group, task))
}

// What follows the six words is not read.
impl FromStr for Line {
    type Err = Reason;

    fn from_str(text: &str) -> Result<Line, Reason> {
        let (number, task) = read_words(&mut text.split_whitespace()).ok_or(Reason::ShortRecord)?;
        let group = GroupKind::try_from(number)?;
        Ok(Line { group, task })
    }
}
