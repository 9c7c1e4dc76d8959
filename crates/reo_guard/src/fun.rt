//! Functions from data to data.
ghost use Rattle.std.specs.Prelude.{◌≡◌, ◌≤◌, ◌↔◌, ℤ, pos, Some, FitsSigned, length, IfOk};
ghost use Rattle.std.specs.Option.{SomeIff};
ghost use Rattle.std.specs.Int.{w64};
ghost use Rattle.reo_value.specs.declared.value.Value.{Value as AnyValue};
ghost use Rattle.reo_value.specs.declared.value.Value.TheVariants.{Int as AnyInt};
ghost use Rattle.reo_guard.specs.Yields.{Yields, IsIntegerInRange, YieldsFirst};

use reo_value::{Lexicon, Num, Value};
use sqlite_items::Items;
use std::alloc::{AllocError, Global};

/// A function on data.
#[derive(Drop)]
pub enum Fun {
    Add(Num),
    Sub(Num),
    Mul(Num),
    Neg,
    /// How many bytes a text has.
    Len,
    /// The second of the first pair whose first is the datum.
    Map(Items<(Value, Value)>),
}

impl Fun {
    /// A copy of the function.
    pub fn try_clone(&self, alloc: Global) -> Result<Fun, AllocError>
        ensures { IfOk result (λ copy. copy ≡ self.now) }
    {
        Ok(match self {
            Fun::Add(more) => Fun::Add(*more),
            Fun::Sub(less) => Fun::Sub(*less),
            Fun::Mul(factor) => Fun::Mul(*factor),
            Fun::Neg => Fun::Neg,
            Fun::Len => Fun::Len,
            Fun::Map(pairs) => Fun::Map(Items::from_slice(alloc, pairs.as_slice())?),
        })
    }
}

/// What a function yields at a datum, where it yields something. A text number that the list does not have counts as a
/// text of no bytes.
pub fn apply(fun: &Fun, datum: Value, texts: &Lexicon) -> Option<Value>
    ensures exact { (value : AnyValue) → (result ≡ Some value) ↔ Yields texts.now fun.now datum value }
{
    match (fun, datum) {
        (Fun::Add(more), Value::Int(number)) => in_range(number.get().checked_add(more.get())),
        (Fun::Sub(less), Value::Int(number)) => in_range(number.get().checked_sub(less.get())),
        (Fun::Mul(factor), Value::Int(number)) => in_range(number.get().checked_mul(factor.get())),
        (Fun::Neg, Value::Int(number)) => in_range(number.get().checked_neg()),
        (Fun::Len, Value::Sym(text)) => length_of(texts.text_or_empty(text)),
        (Fun::Map(pairs), datum) => first_of(pairs.as_slice(), datum),
        _ => None,
    }
}

/// The integer that a calculation in 64 bits gave, where it is in range.
fn in_range(calculated: Option<i64>) -> Option<Value>
    ensures exact { (z : ℤ) → SomeIff calculated (FitsSigned w64 z) z → (value : AnyValue) → (result ≡ Some value) ↔ IsIntegerInRange z value }
{
    Num::new(calculated?).map(Value::Int)
}

/// The number of bytes of a short text.
fn length_of(text: &str) -> Option<Value>
    requires { length text.now ≤ 255 }
    ensures { result ≡ Some (AnyInt (pos (length text.now))) }
{
    Num::new(text.len() as i64).map(Value::Int)
}

/// The second of the first pair whose first is the datum.
fn first_of(pairs: &[(Value, Value)], datum: Value) -> Option<Value>
    ensures exact { (value : AnyValue) → (result ≡ Some value) ↔ YieldsFirst pairs.now datum value }
{
    for (argument, value) in pairs {
        if *argument == datum {
            return Some(*value);
        }
    }
    None
}
