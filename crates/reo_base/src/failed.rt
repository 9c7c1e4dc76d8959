use thiserror::Error;

/// A read or a write that the stream behind it refused.
#[derive(Clone, Copy, Debug, PartialEq, Eq, Error)]
#[error("the stream failed")]
pub struct Failed;
