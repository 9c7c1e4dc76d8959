//! Numbers with the fixed text beside them, each appended at once.
ghost use Rattle.std.specs.Prelude.{◌≡◌, ◌+◌, ◌^◌, ◌<◌, ◌≤◌, ◌∷◌, ◌++◌, length, drop, codes, decimal, OnOk, vec_len};
ghost use Rattle.reo_trace.specs.Buffer.{HasTaken, HasWritten};

use crate::lines::append_short;
use crate::room::{Part, put_short};
use itoa::write_digits;
use std::alloc::AllocError;
use std::marker::Model;

/// Puts text before the place, and answers where it begins.
#[inline(always)]
pub(crate) fn put_before(made: &mut [u8; 64], place: usize, text: &[u8]) -> usize
    requires { (length text.now ≤ place) × (place ≤ 32) }
    ensures start { result + length text.now ≡ place }
    ensures made { drop result made.new ≡ text.now ++ drop place made.old }
{
    let start = place - text.len();
    made[start..place].copy_from_slice(text);
    start
}

/// Appends where a call was answered, with the end of its line.
pub(crate) fn push_place(buffer: &mut Vec<u8>, number: u64) -> Result<(), AllocError>
    ensures taken { OnOk result (HasTaken buffer.old buffer.new (codes " at " ++ decimal number ++ codes "\n")) }
    ensures grows { vec_len buffer.old ≤ vec_len buffer.new }
{
    let mut made = [b'\n'; 64];
    let digits = write_digits(number, &mut made, 31);
    let first = put_before(&mut made, digits, b" at ");
    append_short(buffer, &made, first, 32 - first)
}

/// The front of the next step's line: the word, and the step's number, behind so many bytes.
#[derive(Drop)]
pub(crate) struct StepFront {
    number: u64,
    bytes: [u8; 64],
    start: usize,
}

impl Model for StepFront {
    ghost use Rattle.std.specs.Prelude.{ℕ, ◌≡◌, ◌≤◌, ◌++◌, codes, decimal, drop, replicate};

    ghost Value = { ℕ };

    ghost view = { λ f. f.number };

    ghost invariant = { λ f. (f.start ≤ 32) × (drop f.start f.bytes ≡ (codes "step " ++ decimal f.number) ++ replicate 32 0) };
}

impl StepFront {
    pub(crate) fn new(number: u64) -> StepFront
        ensures { result ≡ number }
    {
        let mut bytes = [0; 64];
        let digits = write_digits(number, &mut bytes, 32);
        let start = put_before(&mut bytes, digits, b"step ");
        StepFront {
            number,
            bytes,
            start,
        }
    }

    /// Goes on to the next step: mostly only the last digit is another one.
    #[inline(always)]
    pub(crate) fn advance(&mut self)
        requires { self.old + 1 < 2 ^ 64 }
        ensures { self.new ≡ self.old + 1 }
    {
        let last = self.bytes[31];
        if last < b'9' {
            self.bytes[31] = last + 1;
            self.number += 1;
        } else {
            *self = StepFront::new(self.number + 1);
        }
    }

    /// Writes the front, and answers where it ends.
    #[inline(always)]
    pub(crate) fn put(&self, room: &mut [u8], used: usize) -> usize
        requires { used + 32 ≤ length room.old }
        ensures written { HasWritten room.old used room.new result (codes "step " ++ decimal self.now) }
        ensures end { result ≤ used + 32 }
        ensures length { length room.new ≡ length room.old }
    {
        put_short(
            room,
            used,
            Part {
                bytes: &self.bytes,
                from: self.start,
                count: 32 - self.start,
            },
        )
    }
}
