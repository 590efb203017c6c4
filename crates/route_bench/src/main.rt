#![tactic(auto)]

use anyhow::anyhow;
use butterfly::Butterfly;
use plan::{Plan, Setting};

// A number that depends on each part of what was computed.
fn mixed(sum: usize, part: usize) -> usize {
    sum.wrapping_mul(31).wrapping_add(part)
}

// The whole listing, comparator by comparator: asked for by number, since just that is timed.
fn listed<P: Plan>(plan: &P, mut sum: usize) -> usize {
    for k in 0..plan.count() {
        if let Some(comparator) = plan.comparator(k) {
            sum = mixed(
                sum,
                comparator
                    .first
                    .wrapping_mul(64)
                    .wrapping_add(comparator.second),
            );
        }
    }
    sum
}

// A permutation of 64 wires, another at each of many turns.
fn shuffled(turn: usize) -> [usize; 64] {
    let step = 2 * (turn % 32) + 1;
    let mut permutation = [0; 64];
    for (wire, entry) in permutation.iter_mut().enumerate() {
        *entry = (step * wire + turn % 64) % 64;
    }
    permutation
}

// One route.
fn routed<P: Plan>(plan: &P, turn: usize, mut sum: usize) -> usize {
    let permutation = shuffled(turn);
    let mut settings = [Setting::Straight; 321];
    if plan.route(&permutation, &mut settings).is_ok() {
        for setting in &settings {
            sum = mixed(sum, usize::from(u8::from(*setting)));
        }
    }
    sum
}

// So many turns of one kind of work, each beginning with the sum of the turns before it.
fn turned<F: Fn(usize, usize) -> usize>(turns: usize, work: F) -> usize
    requires { F.IsAlwaysCallable work }
{
    let mut sum = 0;
    for turn in 0..turns {
        sum = work(turn, sum);
    }
    sum
}

fn run(rt: &HostRuntime) -> anyhow::Result<()> {
    let Ok(plan) = Butterfly::new(64) else {
        return Err(anyhow!("no plan"));
    };
    for line in rt.lines(rt.alloc()) {
        let text = line?;
        let Some((work, turns)) = text.as_str().split_once(' ') else {
            return Err(anyhow!("no work"));
        };
        let turns = turns.parse::<usize>()?;
        let sum = if work == "list" {
            turned(turns, |_, sum| listed(&plan, sum))
        } else {
            turned(turns, |turn, sum| routed(&plan, turn, sum))
        };
        println!(rt; "{work} {turns} {sum}")?;
    }
    Ok(())
}

fn main(rt: HostRuntime) -> anyhow::Result<()> {
    run(&rt)
}
