//! Guards, which a datum meets or fails.
ghost use Rattle.std.specs.Prelude.{◌≡◌, ◌↔◌, IsTrue, IfOk};
ghost use Rattle.reo_value.specs.Lexicon.{text_at};
ghost use Rattle.reo_guard.specs.Holds.{Holds, Compares, order_of, HasRemainder, IsInteger, IsText, IsShort, StartsWith};

use reo_value::{Lexicon, Value};
use sqlite_items::Boxed;
use std::alloc::{AllocError, Global};
use std::cmp::Ordering;

/// How two values are compared.
#[derive(Clone, Copy, Debug, PartialEq, Eq)]
pub enum Cmp {
    Eq,
    Ne,
    Lt,
    Le,
    Gt,
    Ge,
}

/// What is asked of a datum.
#[derive(Drop)]
pub enum Guard {
    /// The datum compares so with this constant.
    Compare(Cmp, Value),
    /// The datum is an integer, and its remainder by the first number, from 0 on, is the second; by 0 there is none.
    Mod(u32, u32),
    IsInt,
    IsText,
    /// The datum is a text of at most so many bytes.
    LenAtMost(u32),
    /// The datum is a text that begins with the text of this number.
    Starts(u32),
    And(Boxed<Guard>, Boxed<Guard>),
    Or(Boxed<Guard>, Boxed<Guard>),
    Not(Boxed<Guard>),
}

impl Guard {
    /// A copy of the guard.
    #[cycle(copies)]
    pub fn try_clone(&self, alloc: Global) -> Result<Guard, AllocError>
        ensures { IfOk result (λ copy. copy ≡ self.now) }
    {
        Ok(match self {
            Guard::Compare(cmp, constant) => Guard::Compare(*cmp, *constant),
            Guard::Mod(divisor, remainder) => Guard::Mod(*divisor, *remainder),
            Guard::IsInt => Guard::IsInt,
            Guard::IsText => Guard::IsText,
            Guard::LenAtMost(most) => Guard::LenAtMost(*most),
            Guard::Starts(front) => Guard::Starts(*front),
            Guard::And(left, right) => Guard::And(
                copy_inside(alloc, left)?,
                copy_inside(alloc, right)?,
            ),
            Guard::Or(left, right) => Guard::Or(
                copy_inside(alloc, left)?,
                copy_inside(alloc, right)?,
            ),
            Guard::Not(inner) => Guard::Not(copy_inside(alloc, inner)?),
        })
    }
}

#[cycle(copies)]
fn copy_inside(alloc: Global, guard: &Boxed<Guard>) -> Result<Boxed<Guard>, AllocError>
    ensures { IfOk result (λ copy. copy ≡ guard.now) }
{
    Boxed::new(alloc, guard.get().try_clone(alloc)?)
}

/// Whether a datum meets a guard. A text number that the list does not have counts as a text of no bytes.
pub fn holds(guard: &Guard, datum: Value, texts: &Lexicon) -> bool
    ensures { IsTrue result ↔ Holds texts.now guard.now datum }
{
    is_met(guard, &datum, texts)
}

fn is_met(guard: &Guard, datum: &Value, texts: &Lexicon) -> bool
    ensures { IsTrue result ↔ Holds texts.now guard.now datum.now }
{
    match guard {
        Guard::Compare(cmp, constant) => compares(*cmp, datum, constant, texts),
        Guard::Mod(divisor, remainder) => has_remainder(datum, *divisor, *remainder),
        Guard::IsInt => is_integer(datum),
        Guard::IsText => is_text(datum),
        Guard::LenAtMost(most) => is_short(datum, *most, texts),
        Guard::Starts(front) => starts_with(datum, *front, texts),
        Guard::And(left, right) => is_met(left.get(), datum, texts)
            && is_met(right.get(), datum, texts),
        Guard::Or(left, right) => is_met(left.get(), datum, texts)
            || is_met(right.get(), datum, texts),
        Guard::Not(inner) => !is_met(inner.get(), datum, texts),
    }
}

fn compares(cmp: Cmp, datum: &Value, constant: &Value, texts: &Lexicon) -> bool
    ensures { IsTrue result ↔ Compares texts.now cmp datum.now constant.now }
{
    match cmp {
        Cmp::Eq => *datum == *constant,
        Cmp::Ne => *datum != *constant,
        Cmp::Lt => order(datum, constant, texts).is_some_and(|order| order.is_lt()),
        Cmp::Le => order(datum, constant, texts).is_some_and(|order| order.is_le()),
        Cmp::Gt => order(datum, constant, texts).is_some_and(|order| order.is_gt()),
        Cmp::Ge => order(datum, constant, texts).is_some_and(|order| order.is_ge()),
    }
}

/// How a value stands to another of its kind.
fn order(datum: &Value, constant: &Value, texts: &Lexicon) -> Option<Ordering>
    ensures { result ≡ order_of texts.now datum.now constant.now }
{
    match datum {
        Value::Int(left) => match constant {
            Value::Int(right) => Some(left.get().cmp(&right.get())),
            Value::Sym(_) => None,
        },
        Value::Sym(left) => match constant {
            Value::Int(_) => None,
            Value::Sym(right) => Some(texts.text_or_empty(*left).cmp(texts.text_or_empty(*right))),
        },
    }
}

fn has_remainder(datum: &Value, divisor: u32, remainder: u32) -> bool
    ensures { IsTrue result ↔ HasRemainder divisor remainder datum.now }
{
    match datum {
        Value::Int(number) => {
            divisor != 0 && number.get().rem_euclid(i64::from(divisor)) == i64::from(remainder)
        }
        Value::Sym(_) => false,
    }
}

fn is_integer(datum: &Value) -> bool
    ensures { IsTrue result ↔ IsInteger datum.now }
{
    matches!(datum, Value::Int(_))
}

fn is_text(datum: &Value) -> bool
    ensures { IsTrue result ↔ IsText datum.now }
{
    matches!(datum, Value::Sym(_))
}

fn is_short(datum: &Value, most: u32, texts: &Lexicon) -> bool
    ensures { IsTrue result ↔ IsShort texts.now most datum.now }
{
    match datum {
        Value::Int(_) => false,
        Value::Sym(text) => texts.text_or_empty(*text).len() <= most as usize,
    }
}

fn starts_with(datum: &Value, front: u32, texts: &Lexicon) -> bool
    ensures { IsTrue result ↔ StartsWith texts.now (text_at texts.now front) datum.now }
{
    match datum {
        Value::Int(_) => false,
        Value::Sym(text) => {
            let bytes = texts.text_or_empty(*text).as_bytes();
            bytes.starts_with(texts.text_or_empty(front).as_bytes())
        }
    }
}
