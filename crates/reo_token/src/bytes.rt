//! The bytes that mean something.
ghost use Rattle.std.specs.Prelude.{◌≡◌};
ghost use Rattle.reo_token.specs.Bytes as spec;

pub(crate) const TAB: u8 = b'\t';

pub(crate) const SPACE: u8 = b' ';

pub(crate) const QUOTE: u8 = b'"';

pub(crate) const HASH: u8 = b'#';

pub(crate) const MINUS: u8 = b'-';

pub(crate) const ZERO: u8 = b'0';

pub(crate) const BACKSLASH: u8 = b'\\';

/// A byte of a word that is no digit.
pub(crate) fn is_letter(byte: u8) -> bool
    ensures { result ≡ spec.is_letter byte }
{
    byte.is_ascii_alphabetic() || byte == b'_'
}

pub(crate) fn is_digit(byte: u8) -> bool
    ensures { result ≡ spec.is_digit byte }
{
    byte.is_ascii_digit()
}

pub(crate) fn is_word_byte(byte: u8) -> bool
    ensures { result ≡ spec.is_word_byte byte }
{
    is_letter(byte) || is_digit(byte)
}

pub(crate) fn is_blank(byte: u8) -> bool
    ensures { result ≡ spec.is_blank byte }
{
    byte == SPACE || byte == TAB
}
