use reo_value::Value;

/// What is at a port of the plain engine.
#[derive(Clone, Copy, Debug, PartialEq, Eq)]
pub enum PortState {
    Idle,
    /// At a put port a value is offered, at a get port none.
    Offered(Option<Value>),
    /// The value that was exchanged, and the number of the step.
    Answered(Value, u64),
}
