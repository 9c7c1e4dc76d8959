//! A number's text that is kept while the number comes again: the names of a step mostly have one value.
ghost use Rattle.std.specs.Prelude.{◌≡◌, ◌≤◌, ◌-◌, take, drop, OnOk, vec_len};
ghost use Rattle.std.specs.Fmt.{signed_decimal};
ghost use Rattle.reo_trace.specs.Buffer.{HasTaken};
ghost use Rattle.reo_trace.specs.Parts.{IsShort};

use crate::lines::append_short;
use crate::numbers::put_before;
use crate::room::Part;
use itoa::write_digits;
use std::alloc::AllocError;
use std::marker::Model;

/// Writes a number with its sign where it is negative, up to byte 32, and answers where it begins.
#[inline(always)]
fn write_signed(number: i64, bytes: &mut [u8; 64]) -> usize
    ensures start { result ≤ 32 }
    ensures written { take (32 - result) (drop result bytes.new) ≡ signed_decimal number }
{
    let digits = write_digits(number.unsigned_abs(), bytes, 32);
    if number >= 0 {
        return digits;
    }
    put_before(bytes, digits, b"-")
}

/// A number, and its text behind so many bytes up to byte 32: those that stand behind it let each text be copied as one
/// of 32.
#[derive(Drop)]
pub(crate) struct Shown {
    number: i64,
    bytes: [u8; 64],
    start: usize,
}

impl Model for Shown {
    ghost use Rattle.std.specs.Prelude.{ℤ, ◌≡◌, ◌≤◌, ◌-◌, take, drop};
    ghost use Rattle.std.specs.Fmt.{signed_decimal};

    ghost Value = { ℤ };

    ghost view = { λ s. s.number };

    ghost invariant = { λ s. (s.start ≤ 32) × (take (32 - s.start) (drop s.start s.bytes) ≡ signed_decimal s.number) };
}

impl Shown {
    pub(crate) fn new(number: i64) -> Shown
        ensures { result ≡ number }
    {
        let mut bytes = [0; 64];
        let start = write_signed(number, &mut bytes);
        Shown {
            number,
            bytes,
            start,
        }
    }

    /// Makes the text of a number, where it is another one.
    #[inline(always)]
    pub(crate) fn turn_to(&mut self, number: i64)
        ensures { self.new ≡ number }
    {
        if self.number != number {
            self.start = write_signed(number, &mut self.bytes);
            self.number = number;
        }
    }

    /// The text.
    #[inline(always)]
    pub(crate) fn part(&self) -> Part<'_>
        ensures { IsShort (signed_decimal self.now) result }
    {
        Part {
            bytes: &self.bytes,
            from: self.start,
            count: 32 - self.start,
        }
    }

    #[inline(always)]
    fn append(&self, buffer: &mut Vec<u8>) -> Result<(), AllocError>
        ensures taken { OnOk result (HasTaken buffer.old buffer.new (signed_decimal self.now)) }
        ensures grows { vec_len buffer.old ≤ vec_len buffer.new }
    {
        append_short(buffer, &self.bytes, self.start, 32 - self.start)
    }
}

/// Appends a number in decimal, with its sign where it is negative.
#[inline(always)]
pub(crate) fn push_shown(
    buffer: &mut Vec<u8>,
    shown: &mut Shown,
    number: i64,
) -> Result<(), AllocError>
    ensures taken { OnOk result (HasTaken buffer.old buffer.new (signed_decimal number)) }
    ensures grows { vec_len buffer.old ≤ vec_len buffer.new }
{
    shown.turn_to(number);
    shown.append(buffer)
}
