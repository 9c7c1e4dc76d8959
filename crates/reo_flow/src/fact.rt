/// What has to be so for a firing. Data are known by their numbers.
#[derive(Clone, Copy, Debug, PartialEq, Eq)]
pub enum Fact {
    /// Something is offered at this port.
    Offered(u32),
    /// Nothing is in this cell.
    Empty(u32),
    /// There is this datum.
    Known(u32),
    /// The datum meets the guard of this channel.
    Met(u32, u32),
    /// The datum fails the guard of this channel.
    Failed(u32, u32),
}
