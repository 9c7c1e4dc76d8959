//! Texts.
ghost use Rattle.std.specs.Prelude.{◌≡◌, ◌==◌, ◌<◌, length, IsUtf8, IfOk};
ghost use Rattle.reo_sentence.specs.Numbered.{AddsText};
ghost use Rattle.std.specs.List.{list_any};
ghost use Rattle.reo_sentence.specs.Seen.{unescaped, byte_step, meant};

use reo_value::{LexRefusal, Lexicon};
use std::alloc::{AllocError, Global};

const BACKSLASH: u8 = b'\\';

/// The number of the text with these bytes between its quotes, which is added where it is new; nothing where it is too long.
pub(crate) fn add_value(
    alloc: Global,
    texts: &mut Lexicon,
    text: &[u8],
) -> Result<Option<u32>, AllocError>
    requires utf8 { IsUtf8 text.now }
    requires room { length texts.old < 16777216 }
    ensures { IfOk result (AddsText (unescaped text.now) texts.old texts.new) }
{
    if !is_escaped(text) {
        return add(alloc, texts, text);
    }
    let value = unescaped(alloc, text)?;
    add(alloc, texts, value.as_slice())
}

// The number of a text, which is added where it is new; nothing where it is too long.
fn add(alloc: Global, texts: &mut Lexicon, value: &[u8]) -> Result<Option<u32>, AllocError>
    requires utf8 { IsUtf8 value.now }
    requires room { length texts.old < 16777216 }
    ensures { IfOk result (AddsText value.now texts.old texts.new) }
{
    let Ok(text) = str::from_utf8(value) else {
        unreachable!()
    };
    match texts.add(alloc, text) {
        Ok(number) => Ok(Some(number)),
        Err(LexRefusal::TooLong) => Ok(None),
        Err(LexRefusal::Full) => unreachable!(),
        Err(LexRefusal::NoMemory) => Err(AllocError),
    }
}

/// Whether a text has a backslash, so that its value has other bytes.
fn is_escaped(text: &[u8]) -> bool
    ensures { result ≡ list_any (λ byte. byte == BACKSLASH) text.now }
{
    text.iter().any(|byte| *byte == BACKSLASH)
}

/// The value of the text with these bytes between its quotes.
fn unescaped(alloc: Global, text: &[u8]) -> Result<Vec<u8>, AllocError>
    ensures { IfOk result (λ value. value.items ≡ unescaped text.now) }
{
    let mut value = Vec::new(alloc);
    let mut is_escaped = false;
    for byte in text {
        match byte_step(is_escaped, *byte) {
            Some(byte) => {
                value.push(byte)?;
                is_escaped = false;
            }
            None => is_escaped = true,
        }
    }
    Ok(value)
}

/// What a byte of a text adds to its value; nothing where the next one is escaped.
fn byte_step(is_escaped: bool, byte: u8) -> Option<u8>
    ensures { result ≡ byte_step is_escaped byte }
{
    if is_escaped {
        return Some(meant(byte));
    }
    if byte == BACKSLASH {
        return None;
    }
    Some(byte)
}

/// What stands for a byte behind a backslash.
fn meant(byte: u8) -> u8
    ensures { result ≡ meant byte }
{
    match byte {
        b'n' => b'\n',
        b't' => b'\t',
        _ => byte,
    }
}
