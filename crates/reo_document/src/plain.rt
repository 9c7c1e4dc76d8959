//! Operations in their plainest spelling, as most are: one blank between two tokens, and none else.
ghost use Rattle.std.specs.Prelude.{◌≡◌, ◌+◌, ◌≤◌, ◌∷◌, length, take, true, IfSome, IsTrue};
ghost use Rattle.reo_token.specs.Bytes as bytes_spec;
ghost use Rattle.reo_token.specs.Cut as cut_spec;
ghost use Rattle.reo_document.specs.Plain.{IsPlain, StandsName, EndsNatural, starts_natural};

use reo_sentence::Name;
use reo_value::{Num, Value};

const LONGEST_NAME: usize = 64;

const LINE_FEED: u8 = b'\n';

const BLANK: u8 = b' ';

const ZERO: u8 = b'0';

// To a number from here on no digit is added.
const LIMIT: u64 = 100_000_000_000_000_000;

/// An operation in its plainest spelling, and the bytes of its line.
#[derive(Clone, Copy)]
pub(crate) struct Plain {
    pub(crate) node: Name,
    pub(crate) value: Option<Value>,
    pub(crate) len: usize,
}

/// The operation that the first line says in its plainest spelling, with a natural number for a datum, where the line ends in a line feed.
#[inline(always)]
pub(crate) fn plain_operation(bytes: &[u8]) -> Option<Plain>
    ensures { IfSome result (IsPlain bytes.now) }
{
    if let Some(rest) = behind_word(bytes, b'p', b'u', b't') {
        return plain_put(bytes, rest);
    }
    if let Some(rest) = behind_word(bytes, b'g', b'e', b't') {
        return plain_get(bytes, rest);
    }
    None
}

// What stands behind a word of these bytes and a blank.
#[inline(always)]
fn behind_word(bytes: &[u8], first: u8, second: u8, third: u8) -> Option<&[u8]>
    ensures { IfSome result (λ rest. bytes.now ≡ first ∷ second ∷ third ∷ 32 ∷ rest.now) }
{
    let more = behind(bytes, first)?;
    let more = behind(more, second)?;
    let more = behind(more, third)?;
    behind(more, BLANK)
}

// What stands behind this byte.
#[inline(always)]
fn behind(bytes: &[u8], byte: u8) -> Option<&[u8]>
    ensures { IfSome result (λ rest. bytes.now ≡ byte ∷ rest.now) }
{
    let (first, rest) = bytes.split_first()?;
    if *first == byte { Some(rest) } else { None }
}

// Behind `put`: a name and a number.
#[inline(always)]
fn plain_put(bytes: &[u8], rest: &[u8]) -> Option<Plain>
    requires { bytes.now ≡ 112 ∷ 117 ∷ 116 ∷ 32 ∷ rest.now }
    ensures { IfSome result (IsPlain bytes.now) }
{
    let _bytes = bytes;
    let len = name_len(rest)?;
    let digits = behind(&rest[len..], BLANK)?;
    let (value, size) = natural(digits)?;
    let number = Num::new(value as i64)?;
    Some(Plain {
        node: name(len),
        value: Some(Value::Int(number)),
        len: 4 + len + 1 + size,
    })
}

// Behind `get`: a name.
#[inline(always)]
fn plain_get(bytes: &[u8], rest: &[u8]) -> Option<Plain>
    requires { bytes.now ≡ 103 ∷ 101 ∷ 116 ∷ 32 ∷ rest.now }
    ensures { IfSome result (IsPlain bytes.now) }
{
    let _bytes = bytes;
    let len = name_len(rest)?;
    let _more = behind(&rest[len..], LINE_FEED)?;
    Some(Plain {
        node: name(len),
        value: None,
        len: 4 + len,
    })
}

// The name of so many bytes behind the word.
#[inline(always)]
fn name(len: usize) -> Name
    requires { len ≤ 64 }
    ensures start { result.start ≡ 4 }
    ensures end { result.end ≡ 4 + len }
{
    Name {
        start: 4,
        end: 4 + len as u32,
    }
}

// How many bytes the name has that begins here, where one does.
#[inline(always)]
fn name_len(bytes: &[u8]) -> Option<usize>
    ensures { IfSome result (StandsName bytes.now) }
{
    let (first, _) = bytes.split_first()?;
    if !is_letter(*first) {
        return None;
    }
    let len = run(bytes);
    if len > LONGEST_NAME {
        return None;
    }
    Some(len)
}

// How many word bytes stand here.
#[inline(always)]
fn run(bytes: &[u8]) -> usize
    ensures exact { result ≡ cut_spec.run bytes.now }
    ensures within { result ≤ length bytes.now }
{
    bytes.iter().take_while(|byte| is_word_byte(**byte)).count()
}

#[inline(always)]
fn is_letter(byte: u8) -> bool
    ensures { result ≡ bytes_spec.is_letter byte }
{
    byte.is_ascii_alphabetic() || byte == b'_'
}

#[inline(always)]
fn is_digit(byte: u8) -> bool
    ensures { result ≡ bytes_spec.is_digit byte }
{
    byte.is_ascii_digit()
}

#[inline(always)]
fn is_word_byte(byte: u8) -> bool
    ensures { result ≡ bytes_spec.is_word_byte byte }
{
    is_letter(byte) || is_digit(byte)
}

// The number that stands here before a line feed, and how many digits it has.
#[inline(always)]
fn natural(digits: &[u8]) -> Option<(u64, usize)>
    ensures { IfSome result (λ it. EndsNatural digits.now it.0 it.1) }
{
    let mut value = 0;
    let mut len = 0;
    for byte in digits {
        if !is_digit(*byte) {
            if !ends_natural(digits, *byte, len) {
                return None;
            }
            return Some((value, len));
        }
        if value >= LIMIT {
            return None;
        }
        value = 10 * value + u64::from(*byte - ZERO);
        len += 1;
    }
    None
}

// A natural number of so many digits stands before this byte, which is a line feed.
#[inline(always)]
fn ends_natural(digits: &[u8], byte: u8, len: usize) -> bool
    requires { len ≤ length digits.now }
    ensures { IsTrue result → (byte ≡ 10) × (starts_natural (take len digits.now) ≡ true) }
{
    byte == LINE_FEED && starts_natural(&digits[..len])
}

// The first digit is above 0, or the only one.
#[inline(always)]
fn starts_natural(digits: &[u8]) -> bool
    ensures { result ≡ starts_natural digits.now }
{
    match digits.split_first() {
        Some((first, more)) => *first > ZERO || more.is_empty(),
        None => false,
    }
}
