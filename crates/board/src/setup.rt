// What every call of a round goes by: the group, the plan and the source of its challenges. The board does not hold
// them, and each call is lent the same.
#[derive_where(Clone, Copy)]
pub struct Setup<'a, G, P, S> {
    pub group: &'a G,
    pub plan: &'a P,
    pub source: &'a S,
}
