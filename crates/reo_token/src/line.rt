//! Cutting a line into its tokens.
ghost use Rattle.std.specs.Prelude.{◌≡◌, ◌≤◌, ◌<◌, ◌+◌, ◌==◌, if◌then◌else◌, ◌^◌, length, drop, slice_index, false, All, OnOk, IfOk, IfSome};
ghost use Rattle.std.specs.List.{list_all};
ghost use Rattle.reo_token.specs.Bytes as bytes_spec;
ghost use Rattle.reo_token.specs.Cut as spec;

use crate::bytes::{
    BACKSLASH, HASH, MINUS, QUOTE, SPACE, ZERO, is_blank, is_digit, is_letter, is_word_byte,
};
use crate::token::{End, Lexeme, Symbol, Token};
use std::alloc::AllocError;

/// How many tokens a line may have.
pub const MOST_TOKENS: usize = 512;

/// The tokens of a line up to a bad one, or up to the most that a line may have.
pub fn cut_line(tokens: &mut Vec<Token>, line: &[u8]) -> Result<End, AllocError>
    requires { length line.now < 2 ^ 32 }
    ensures exact { IfOk result (λ end. (tokens.new.items, end) ≡ spec.cut MOST_TOKENS 0 line.now) }
    ensures within { OnOk result (All (spec.IsWithin (length line.now)) tokens.new.items) }
    ensures end { IfOk result (spec.IsEndWithin (length line.now)) }
{
    tokens.clear();
    let mut rest = line;
    loop {
        rest = skip(rest, blanks(rest));
        if is_over(rest) {
            return Ok(End::Over);
        }
        if tokens.len() == MOST_TOKENS {
            return Ok(End::Large);
        }
        let start = line.len() - rest.len();
        let Some((lexeme, len)) = token_at(rest) else {
            return Ok(End::Bad(start as u32));
        };
        tokens.push(Token {
            lexeme,
            start: start as u32,
            end: (start + len) as u32,
        })?;
        rest = skip(rest, len);
    }
}

fn skip(bytes: &[u8], count: usize) -> &[u8]
    requires { count ≤ length bytes.now }
    ensures { result.now ≡ drop count bytes.now }
{
    &bytes[count..]
}

/// Where the line is over, or a comment begins.
fn is_over(bytes: &[u8]) -> bool
    ensures { result ≡ spec.is_over bytes.now }
{
    match bytes.first() {
        Some(byte) => *byte == HASH,
        None => true,
    }
}

fn blanks(bytes: &[u8]) -> usize
    ensures exact { result ≡ spec.blanks bytes.now }
    ensures within { result ≤ length bytes.now }
{
    bytes.iter().take_while(|byte| is_blank(**byte)).count()
}

/// How many word bytes stand here.
fn run(bytes: &[u8]) -> usize
    ensures exact { result ≡ spec.run bytes.now }
    ensures within { result ≤ length bytes.now }
{
    bytes.iter().take_while(|byte| is_word_byte(**byte)).count()
}

/// The token that begins here, and its number of bytes.
fn token_at(bytes: &[u8]) -> Option<(Lexeme, usize)>
    ensures exact { result ≡ spec.token_at bytes.now }
    ensures within { IfSome result (λ t. t.1 ≤ length bytes.now) }
    ensures some { IfSome result (λ t. 0 < t.1) }
    ensures quotes { IfSome result (λ t. t.0 ≡ Lexeme.Text → 2 ≤ t.1) }
{
    let (first, more) = bytes.split_first()?;
    let next = first_of(more);
    if is_letter(*first) {
        return Some((Lexeme::Word, run(bytes)));
    }
    if is_digit(*first) {
        return number_at(false, bytes);
    }
    if *first == MINUS && is_digit(next) {
        return behind_minus(more);
    }
    if *first == QUOTE {
        return text_at(more);
    }
    symbol_at(*first, next)
}

/// The first byte, or 0 where there is none.
fn first_of(bytes: &[u8]) -> u8
    ensures { result ≡ slice_index bytes.now 0 }
{
    bytes.first().copied().unwrap_or(0)
}

/// The number that begins with these digits; behind a minus sign a number does not begin with 0.
fn number_at(is_negative: bool, digits: &[u8]) -> Option<(Lexeme, usize)>
    ensures { result ≡ spec.number_at is_negative digits.now }
{
    let len = run(digits);
    if !is_natural(&digits[..len]) {
        return None;
    }
    if is_negative && first_of(digits) == ZERO {
        return None;
    }
    Some((Lexeme::Number, len))
}

fn behind_minus(digits: &[u8]) -> Option<(Lexeme, usize)>
    ensures { result ≡ spec.behind_minus digits.now }
{
    let (lexeme, len) = number_at(true, digits)?;
    Some((lexeme, len + 1))
}

/// Digits of which the first is above 0, or the only one.
fn is_natural(digits: &[u8]) -> bool
    ensures { result ≡ spec.is_natural digits.now }
{
    match digits.split_first() {
        Some((first, more)) => { has_digits(digits) && (*first > ZERO || more.is_empty()) }
        None => false,
    }
}

fn has_digits(bytes: &[u8]) -> bool
    ensures { result ≡ list_all bytes_spec.is_digit bytes.now }
{
    bytes.iter().all(|byte| is_digit(*byte))
}

/// The text of which these bytes follow the opening quote.
fn text_at(bytes: &[u8]) -> Option<(Lexeme, usize)>
    ensures exact { result ≡ spec.text_at bytes.now }
    ensures within { IfSome result (λ t. t.1 ≤ length bytes.now + 1) }
{
    let len = text_len(bytes)?;
    Some((Lexeme::Text, len + 2))
}

/// What a byte of a text does to it.
enum Step {
    Closes,
    Bad,
    /// The text goes on; is the next byte escaped?
    On(bool),
}

/// How many bytes stand before the closing quote.
fn text_len(bytes: &[u8]) -> Option<usize>
    ensures exact { result ≡ spec.text_len false bytes.now }
    ensures within { IfSome result (λ n. n < length bytes.now) }
{
    let mut is_escaped = false;
    for (at, byte) in bytes.iter().enumerate() {
        match text_step(is_escaped, *byte) {
            Step::Closes => return Some(at),
            Step::Bad => return None,
            Step::On(next) => is_escaped = next,
        }
    }
    None
}

fn text_step(is_escaped: bool, byte: u8) -> Step
    ensures { result ≡ spec.text_step is_escaped byte }
{
    if is_escaped {
        return if can_be_escaped(byte) {
            Step::On(false)
        } else {
            Step::Bad
        };
    }
    if byte == QUOTE {
        return Step::Closes;
    }
    if byte == BACKSLASH {
        return Step::On(true);
    }
    if byte < SPACE {
        return Step::Bad;
    }
    Step::On(false)
}

fn can_be_escaped(byte: u8) -> bool
    ensures { result ≡ bytes_spec.can_be_escaped byte }
{
    byte == QUOTE || byte == BACKSLASH || byte == b'n' || byte == b't'
}

/// The symbol that begins with this byte, before the next one.
fn symbol_at(byte: u8, next: u8) -> Option<(Lexeme, usize)>
    ensures exact { result ≡ spec.symbol_at byte next }
    ensures within { IfSome result (λ t. t.1 ≤ (if next == 0 then 1 else 2)) }
{
    if let Some(symbol) = long_symbol(byte, next) {
        return Some((Lexeme::Sign(symbol), 2));
    }
    let symbol = short_symbol(byte)?;
    Some((Lexeme::Sign(symbol), 1))
}

fn long_symbol(byte: u8, next: u8) -> Option<Symbol>
    ensures { result ≡ spec.long_symbol byte next }
{
    if byte == b'-' && next == b'>' {
        return Some(Symbol::Arrow);
    }
    if byte == b'<' && next == b'=' {
        return Some(Symbol::LessOrEqual);
    }
    if byte == b'>' && next == b'=' {
        return Some(Symbol::GreaterOrEqual);
    }
    if byte == b'!' && next == b'=' {
        return Some(Symbol::NotEqual);
    }
    None
}

fn short_symbol(byte: u8) -> Option<Symbol>
    ensures { result ≡ spec.short_symbol byte }
{
    match byte {
        b'<' => Some(Symbol::Less),
        b'>' => Some(Symbol::Greater),
        b'=' => Some(Symbol::Equal),
        b'+' => Some(Symbol::Plus),
        b'-' => Some(Symbol::Minus),
        b'*' => Some(Symbol::Star),
        b'(' => Some(Symbol::Open),
        b')' => Some(Symbol::Close),
        b'{' => Some(Symbol::OpenBrace),
        b'}' => Some(Symbol::CloseBrace),
        b',' => Some(Symbol::Comma),
        _ => None,
    }
}
