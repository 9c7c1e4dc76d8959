/// What the commit word allows a region.
#[derive(Clone, Copy, Debug, PartialEq, Eq)]
pub enum Clock {
    /// It was below the limit, and the region may commit once in this round.
    Clear(u64),
    /// It was not.
    AtLimit(u64),
}
