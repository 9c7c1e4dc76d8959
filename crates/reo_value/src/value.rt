use crate::num::Num;

/// A datum: an integer, or a text by its number in the document's list of texts.
#[derive(Clone, Copy, Debug, PartialEq, Eq)]
pub enum Value {
    Int(Num),
    Sym(u32),
}
