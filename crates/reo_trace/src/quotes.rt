//! Values that are texts, as lines have them: each made once.
ghost use Rattle.std.specs.Prelude.{ℕ, ◌≤◌, List, IfOk, IfSome, OnOk, vec_len};
ghost use Rattle.reo_trace.specs.Buffer.{HasTaken};
ghost use Rattle.reo_trace.specs.Fronts.{AreQuotes, quoted_text};
ghost use Rattle.reo_trace.specs.Parts.{IsShort};
ghost use Rattle.reo_trace.specs.ReportText.{value_text};

use crate::lines::push_quoted;
use crate::parts::{Parts, push_part, short_part};
use crate::room::Part;
use crate::shown::Shown;
use reo_value::{Lexicon, Value};
use std::alloc::{AllocError, Global};

/// All texts, each between quotes.
pub(crate) fn quotes_of(alloc: Global, texts: &Lexicon) -> Result<Parts, AllocError>
    ensures { IfOk result (AreQuotes texts.now) }
{
    let mut bytes = Vec::new(alloc);
    let mut starts = vec![in alloc; 0usize]?;
    for text in 0..texts.len() {
        push_quoted(&mut bytes, texts, text)?;
        starts.push(bytes.len())?;
    }
    bytes.extend_from_slice(&[0; 32])?;
    Ok(Parts { bytes, starts })
}

/// Appends a text between quotes, at once where it is made.
#[inline(always)]
pub(crate) fn push_quote_of(
    buffer: &mut Vec<u8>,
    texts: &Lexicon,
    quotes: &Parts,
    text: u32,
) -> Result<(), AllocError>
    requires { AreQuotes texts.now quotes.now }
    ensures taken { OnOk result (HasTaken buffer.old buffer.new (quoted_text texts.now text)) }
    ensures grows { vec_len buffer.old ≤ vec_len buffer.new }
{
    if text >= texts.len() {
        return push_quoted(buffer, texts, text);
    }
    push_part(buffer, quotes, text as usize)
}

/// A value's text, where it is short.
#[inline(always)]
pub(crate) fn short_datum<'a>(
    quotes: &'a Parts,
    shown: &'a mut Shown,
    value: Value,
) -> Option<Part<'a>>
    ensures { (texts : List (List ℕ)) → AreQuotes texts quotes.now → IfSome result (IsShort (value_text texts value)) }
{
    match value {
        Value::Int(number) => {
            shown.turn_to(number.get());
            Some(shown.part())
        }
        Value::Sym(text) => short_part(quotes, text),
    }
}
