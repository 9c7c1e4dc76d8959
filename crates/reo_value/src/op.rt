use crate::value::Value;

/// Which way a datum goes at a port: in, where components put, or out, where they get.
#[derive(Clone, Copy, Debug, PartialEq, Eq)]
pub enum Way {
    Put,
    Get,
}

/// An operation of a component's script, at the port of this number.
#[derive(Clone, Copy, Debug, PartialEq, Eq)]
pub enum Op {
    Put(u32, Value),
    Get(u32),
}
