//! Functions.
ghost use Rattle.std.specs.Prelude.{◌++◌, codes, flat_map};
ghost use Rattle.std.specs.Fmt.{signed_decimal};
ghost use Rattle.reo_print.specs.Buffer.{Adds};
ghost use Rattle.reo_print.specs.Canonical.{pair_text, next_text, pairs_text, function_text};

use reo_guard::Fun;
use reo_trace::{push_bytes, push_signed, push_value};
use reo_value::{Lexicon, Num, Value};
use std::alloc::AllocError;

fn push_pair(buffer: &mut Vec<u8>, texts: &Lexicon, pair: (Value, Value)) -> Result<(), AllocError>
    ensures { Adds buffer.old buffer.new result (pair_text texts.now pair) }
{
    push_value(buffer, texts, pair.0)?;
    push_bytes(buffer, b" -> ")?;
    push_value(buffer, texts, pair.1)
}

fn push_next(buffer: &mut Vec<u8>, texts: &Lexicon, pair: (Value, Value)) -> Result<(), AllocError>
    ensures { Adds buffer.old buffer.new result (next_text texts.now pair) }
{
    push_bytes(buffer, b", ")?;
    push_pair(buffer, texts, pair)
}

fn push_further(
    buffer: &mut Vec<u8>,
    texts: &Lexicon,
    pairs: &[(Value, Value)],
) -> Result<(), AllocError>
    ensures { Adds buffer.old buffer.new result (flat_map (next_text texts.now) pairs.now) }
{
    for pair in pairs {
        push_next(buffer, texts, *pair)?;
    }
    Ok(())
}

fn push_pairs(
    buffer: &mut Vec<u8>,
    texts: &Lexicon,
    pairs: &[(Value, Value)],
) -> Result<(), AllocError>
    ensures { Adds buffer.old buffer.new result (pairs_text texts.now pairs.now) }
{
    match pairs.split_first() {
        None => push_bytes(buffer, b"map { }"),
        Some((pair, further)) => {
            push_bytes(buffer, b"map { ")?;
            push_pair(buffer, texts, *pair)?;
            push_further(buffer, texts, further)?;
            push_bytes(buffer, b" }")
        }
    }
}

fn push_sum(buffer: &mut Vec<u8>, sign: &[u8], number: Num) -> Result<(), AllocError>
    ensures { Adds buffer.old buffer.new result (sign.now ++ signed_decimal number) }
{
    push_bytes(buffer, sign)?;
    push_signed(buffer, number.get())
}

pub(crate) fn push_function(
    buffer: &mut Vec<u8>,
    texts: &Lexicon,
    function: &Fun,
) -> Result<(), AllocError>
    ensures { Adds buffer.old buffer.new result (function_text texts.now function.now) }
{
    match function {
        Fun::Add(more) => push_sum(buffer, b"+ ", *more),
        Fun::Sub(less) => push_sum(buffer, b"- ", *less),
        Fun::Mul(factor) => push_sum(buffer, b"* ", *factor),
        Fun::Neg => push_bytes(buffer, b"neg"),
        Fun::Len => push_bytes(buffer, b"len"),
        Fun::Map(pairs) => push_pairs(buffer, texts, pairs.as_slice()),
    }
}
