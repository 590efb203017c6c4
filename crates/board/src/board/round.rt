// Opening a board, and judging a round.
ghost use Rattle.std.specs.Prelude.{◌≡◌, ◌+◌, ◌*◌, ◌/◌, ◌≤◌, length, OnOk};
ghost use Rattle.elgamal.specs.Ciphertexts.{meaning};
ghost use Rattle.equivalence.specs.Equations.{same_point};
ghost use Rattle.equivalence.specs.Judgement.{Answered};
ghost use Rattle.prover.specs.States.{Outcome};
ghost use Rattle.board.specs.Rounds.{servers_fit, judge_open, blank, needed, verdict_of, standing_of};
ghost use Rattle.board.specs.States.{view, state_map, opened};

use super::Board;
use super::lists::fill;
use crate::events::Stage;
use crate::verdict::{Standing, Verdict};
use elgamal::Ciphertext;
use group::Group;
use plan::Plan;
use refusal::{Reason, Refusal};

// Whether an element is the one: the group tells, since elements that differ may mean one point.
fn is_one<G: Group>(group: &G, element: G::Element) -> bool
    ensures { result ≡ same_point G.Group.operations (G.Group.point element) G.Group.operations.one }
{
    group.equals(element, group.one())
}

// Whether a round can have so many servers.
pub fn servers_fit(servers: usize) -> bool
    ensures { result ≡ servers_fit servers }
{
    servers >= 1 && servers <= 8
}

// Judges an opening: the servers, the key, and then the lists' lengths.
fn judge_opening<G: Group>(
    group: &G,
    n: usize,
    servers: usize,
    key: G::Element,
    wires: usize,
    start: usize,
) -> Result<(), Refusal>
    ensures judged { Answered (judge_open G.Group.operations n servers (G.Group.point key) wires start) 0 result }
    ensures fits { OnOk result ((1 ≤ servers) × (servers ≤ 8) × (wires ≡ n) × (start ≡ n)) }
{
    if !servers_fit(servers) {
        return Err(Reason::UnfitServers.at(0));
    }
    if is_one(group, key) {
        return Err(Reason::KeyIsOne.at(0));
    }
    if wires != n || start != n {
        return Err(Reason::UnfitLength.at(0));
    }
    Ok(())
}

// Opens a board over the plan's wires, with the one in every place of both lists.
pub fn open<'a, G: Group, P: Plan>(
    group: &G,
    plan: &P,
    key: G::Element,
    servers: usize,
    wires: &'a mut [Ciphertext<G::Element>],
    start: &'a mut [Ciphertext<G::Element>],
) -> Result<Board<'a, G::Element>, Refusal>
    ensures { Outcome (judge_open G.Group.operations (P.Plan.width plan.now) servers (G.Group.point key) (length wires.old) (length start.old)) 0
        (λ b. (b.key ≡ key) × (state_map (meaning G.Group.point) (view b) ≡ opened (P.Plan.width plan.now) servers (blank G.Group.operations))) result }
{
    judge_opening(group, plan.wires(), servers, key, wires.len(), start.len())?;
    let one = group.one();
    let item = Ciphertext {
        alpha: one,
        beta: one,
    };
    fill(wires, item);
    fill(start, item);
    Ok(Board {
        key,
        wires,
        start,
        servers,
        stage: Stage::Gathering,
        posted: 0,
        completed: 0,
        server: 0,
        next: 0,
    })
}

// How many of the servers have to be completed.
fn needed_of(servers: usize) -> usize
    requires { servers ≤ 8 }
    ensures { result ≡ needed servers }
{
    (3 * servers + 1) / 4
}

impl<'a, E> Board<'a, E> {
    // Whether the round stands, is void, or is not finished.
    pub fn verdict(&self) -> Verdict
        ensures { result ≡ verdict_of (view self.now) }
    {
        match self.stage {
            Stage::Gathering | Stage::Turning => Verdict::Unfinished,
            Stage::Finished if needed_of(self.servers) <= self.completed => Verdict::Stands,
            Stage::Finished => Verdict::Void,
        }
    }

    // The verdict, and how many of how many servers are completed.
    pub fn standing(&self) -> Standing
        ensures { result ≡ standing_of (view self.now) }
    {
        Standing {
            verdict: self.verdict(),
            completed: self.completed,
            servers: self.servers,
        }
    }
}
