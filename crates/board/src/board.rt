// A board over lent lists.
ghost use Rattle.std.specs.Prelude.{◌≡◌, ◌+◌, ◌≤◌, length};
ghost use Rattle.board.specs.Stages.{turning};
ghost use Rattle.board.specs.declared.events.Stage.TheVariants.{Gathering};

use crate::events::Stage;
use elgamal::Ciphertext;

pub mod call;
pub mod calls;
mod lists;
pub mod round;
pub mod serve;
mod step;
pub mod turn;

// The wires and the start list are lent at opening, and written by the board's calls alone.
#[derive(Drop)]
pub struct Board<'a, E> {
    key: E,
    wires: &'a mut [Ciphertext<E>],
    start: &'a mut [Ciphertext<E>],
    servers: usize,
    // no enum with fields: a refusal tells the next comparator at every stage
    stage: Stage,
    posted: usize,
    completed: usize,
    server: usize,
    next: usize,
    ghost level: { length start.now ≡ length wires.now },
    ghost room: { posted ≤ length wires.now },
    ghost some: { 1 ≤ servers },
    ghost few: { servers ≤ 8 },
    ghost turns: { server ≤ servers },
    ghost fresh: { (stage ≡ Gathering → server ≡ 0) },
    ghost done: { completed + turning stage ≤ server },
    ghost steps: { next ≤ 4096 },
}
