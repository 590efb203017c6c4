// How a round ended.
#[derive(Clone, Copy)]
pub enum Verdict {
    // enough servers completed their turns
    Stands,
    // the round is finished, and too few did
    Void,
    Unfinished,
}

// A round's verdict, with the counts that it rests on.
#[derive(Clone, Copy)]
pub struct Standing {
    pub verdict: Verdict,
    pub completed: usize,
    pub servers: usize,
}
