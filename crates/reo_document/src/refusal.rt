//! Why bytes are no document.
use thiserror::Error;

/// Why bytes were not read. Lines and columns count from 1, and a column counts bytes.
#[derive(Clone, Copy, Debug, PartialEq, Eq, Error)]
pub enum TextRefusal {
    #[error("byte {0}: not UTF-8")]
    NotUtf8(u32),
    #[error("line {0}, column {1}: syntax")]
    Syntax(u32, u32),
    #[error("line {0}: more than 512 tokens")]
    LineLarge(u32),
    #[error("line {0}: number out of range")]
    NumberRange(u32),
    #[error("line {0}: text over 255 bytes")]
    TextLong(u32),
    #[error("line {0}: more than 128 components")]
    TooManyComponents(u32),
    #[error("line {0}: component named twice")]
    ComponentTwice(u32),
    #[error("line {0}: unknown port")]
    UnknownPort(u32),
    #[error("line {0}: wrong way")]
    WrongWay(u32),
    #[error("line {0}: port shared")]
    PortShared(u32),
    #[error("line {0}: more than 100000 operations")]
    TooManyOps(u32),
    #[error("out of memory")]
    NoMemory,
}

/// Why a line may not stand behind those before it.
#[derive(Clone, Copy, Debug, PartialEq, Eq)]
pub(crate) enum Misplaced {
    TooManyComponents,
    ComponentTwice,
    UnknownPort,
    WrongWay,
    PortShared,
    TooManyOps,
}
