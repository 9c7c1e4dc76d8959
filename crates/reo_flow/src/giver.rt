/// Where a name of a firing has its datum from.
#[derive(Clone, Copy, Debug, PartialEq, Eq)]
pub enum Giver {
    /// Nothing gives it one.
    Unfed,
    /// The buffer in this cell.
    Cell(u32),
    /// What is offered at this put port.
    Port(u32),
    /// Another name, whose datum it has too.
    Same(u32),
    /// What the function of this channel yields at the datum of a name.
    Image(u32, u32),
}
