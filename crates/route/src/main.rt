#![tactic(auto)]

ghost use Rattle.std.specs.Prelude.{◌≡◌, ℕ, ◌<◌, IfOk};
ghost use Rattle.std.specs.List.{range_with_len};
ghost use Rattle.plan.specs.Plans.{Brings};

use anyhow::anyhow;
use kinds::{KnownPlan, PlanKind};
use plan::{Plan, Setting, run_plan};
use refusal::{Failure, Reason};
use std::alloc::{AllocError, Global};
use std::fmt;
use std::fmt::Display;

// A route and what it brings about.
#[derive(Drop)]
struct Answer {
    settings: Vec<Setting>,
    brought: Vec<usize>,
}

impl fmt::Display for Answer {
    fn fmt<W: fmt::Write>(&self, f: &mut fmt::Formatter<W>) -> fmt::Result {
        write!(f, "settings")?;
        for setting in self.settings.as_slice() {
            // by its parts: a `write!` keeps and puts back the formatter's options, which took longer than the number itself
            f.write_str(" ")?;
            u8::from(*setting).fmt(f)?;
        }
        write!(f, " brings")?;
        for wire in self.brought.as_slice() {
            write!(f, " {wire}")?;
        }
        Ok(())
    }
}

// The numbers of the wires, in order.
fn wires_in_order(heap: Global, count: usize) -> Result<Vec<usize>, AllocError>
    ensures { IfOk result (λ v. v.items ≡ range_with_len 0 count) }
{
    (0..count).collect(heap)
}

// Routes the entries on a plan, and runs the plan on the numbers of the wires.
fn route_on<P: Plan>(heap: Global, plan: &P, entries: &[usize]) -> Result<Answer, Failure>
    ensures { IfOk result (λ a. Brings (P.Plan.width plan.now) (P.Plan.listing plan.now) a.settings.items entries.now × (a.brought.items ≡ entries.now)) }
{
    let mut settings = vec![in heap; Setting::Straight; plan.count()]?;
    plan.route(entries, settings.as_mut_slice())?;
    let mut brought = wires_in_order(heap, plan.wires())?;
    run_plan(plan, settings.as_slice(), brought.as_mut_slice())?;
    Ok(Answer { settings, brought })
}

// A line: the plan's number, the number of wires, the entries.
fn route_line(heap: Global, numbers: &[usize]) -> Result<Answer, Failure> {
    let [number, wires, entries @ ..] = numbers else {
        return Err(Failure::from(Reason::ShortRecord.at(0)));
    };
    let kind = PlanKind::try_from(*number as u64).map_err(|reason| reason.at(0))?;
    let plan = KnownPlan::new(kind, *wires)?;
    route_on(heap, &plan, entries)
}

// The numbers of a line. The program that serves a turn has these lines too: a crate for them alone is no plainer.
fn numbers_of(heap: Global, line: &str) -> anyhow::Result<Vec<usize>> {
    line.split_whitespace()
        .map(|word| Ok(word.parse::<usize>()?))
        .try_collect(heap)
}

fn run(rt: &HostRuntime) -> anyhow::Result<()> {
    for line in rt.lines(rt.alloc()) {
        let numbers = numbers_of(rt.alloc(), line?.as_str())?;
        match route_line(rt.alloc(), numbers.as_slice()) {
            Ok(answer) => rt.println(answer)?,
            Err(Failure::Refused(refusal)) => rt.println(refusal)?,
            Err(Failure::NoMemory(_)) => return Err(anyhow!("no memory")),
        }
    }
    Ok(())
}

fn main(rt: HostRuntime) -> anyhow::Result<()> {
    run(&rt)
}
