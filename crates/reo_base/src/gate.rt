/// What a worker passes before each operation of its component, by its number from 0, and once more, with the number of
/// operations, after the last was answered. A gate may hold a worker for a while.
pub trait Gate {
    fn pass(&self, component: u32, op: u32);
}

/// A gate that holds nobody.
#[derive(Clone, Copy, Debug)]
pub struct OpenGate;

impl Gate for OpenGate {
    fn pass(&self, _component: u32, _op: u32) {}
}
