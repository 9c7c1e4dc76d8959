//! The word that stands for a value in a shared cell.
ghost use Rattle.std.specs.Prelude.{◌≡◌, ◌≢◌, ◌↔◌, Some, IsNone, IfSome};
ghost use Rattle.reo_value.specs.Code.{code_of, IsNoCode, IsValue};
ghost use Rattle.reo_value.specs.declared.value.Value.{Value as AnyValue};

use crate::num::Num;
use crate::value::Value;

// What makes an integer in range a natural number.
const SHIFT: i64 = 1 << 62;

/// The code of a value. It is never 0, which is left to mean that there is none.
pub fn word_of(value: Value) -> u64
    ensures code { result ≡ code_of value }
    ensures nonzero { result ≢ 0 }
    ensures in_range { IsValue value }
{
    match value {
        Value::Int(number) => 2 * (number.get() + SHIFT) as u64 + 1,
        Value::Sym(text) => 2 * (u64::from(text) + 1),
    }
}

/// The value with this code.
pub fn value_of(word: u64) -> Option<Value>
    ensures code { IfSome result (λ v. code_of v ≡ word) }
    ensures in_range { IfSome result IsValue }
    ensures none { IsNone result ↔ IsNoCode word }
    ensures inverse { (v : AnyValue) → IsValue v → code_of v ≡ word → result ≡ Some v }
{
    let half = word / 2;
    if word % 2 == 1 {
        let number = Num::new(half as i64 - SHIFT)?;
        return Some(Value::Int(number));
    }
    let text = u32::try_from(half.checked_sub(1)?).ok()?;
    Some(Value::Sym(text))
}
