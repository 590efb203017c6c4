// Which groups and plans a number names.
#![tactic(auto)]

ghost use Rattle.kinds.specs.Kinds.{IsNamedGroup, IsNamedPlan};

mod known;

pub use known::KnownPlan;
use refusal::Reason;

#[derive(Clone, Copy, PartialEq, Eq)]
pub enum GroupKind {
    ResiduesModulo23,
    BinaryPolynomials,
}

#[derive(Clone, Copy, PartialEq, Eq)]
pub enum PlanKind {
    Chain,
    Butterfly,
}

// A number of 64 bits, since most programs read wider ones than a file has.
impl TryFrom<u64> for GroupKind {
    type Error = Reason;

    ghost try_from_gives = { IsNamedGroup };

    fn try_from(number: u64) -> Result<GroupKind, Reason> {
        match number {
            1 => Ok(GroupKind::ResiduesModulo23),
            2 => Ok(GroupKind::BinaryPolynomials),
            _ => Err(Reason::UnknownGroupOrPlan),
        }
    }
}

impl TryFrom<u64> for PlanKind {
    type Error = Reason;

    ghost try_from_gives = { IsNamedPlan };

    fn try_from(number: u64) -> Result<PlanKind, Reason> {
        match number {
            1 => Ok(PlanKind::Chain),
            2 => Ok(PlanKind::Butterfly),
            _ => Err(Reason::UnknownGroupOrPlan),
        }
    }
}
