//! Texts of numbers, each made once, one behind the other, from where they are copied.
ghost use Rattle.std.specs.Prelude.{ℕ, ◌+◌, ◌≤◌, ◌<◌, length, List, IfSome, OnOk, vec_len};
ghost use Rattle.reo_trace.specs.Buffer.{HasTaken};
ghost use Rattle.reo_trace.specs.Parts.{AreParts, IsPlace, IsShort};

use crate::lines::{append_short, push_bytes};
use crate::room::Part;
use std::alloc::AllocError;

/// The texts, and some bytes more; where each begins, and where the last ends.
#[derive(Drop)]
pub(crate) struct Parts {
    pub(crate) bytes: Vec<u8>,
    pub(crate) starts: Vec<usize>,
}

/// Where a text begins, and how long it is.
#[derive(Clone, Copy)]
pub(crate) struct Place {
    pub(crate) from: usize,
    pub(crate) count: usize,
}

/// Where the text of a number stands.
#[inline(always)]
fn place_of(parts: &Parts, number: usize) -> Place
    requires { number + 1 < length parts.now.starts.items }
    ensures { (part : ℕ → List ℕ) (count : ℕ) → AreParts part count parts.now → IsPlace (part number) parts.now result }
{
    let starts = parts.starts.as_slice();
    let from = starts[number];
    Place {
        from,
        count: starts[number + 1].wrapping_sub(from),
    }
}

/// The text of a number, where it is made and short.
#[inline(always)]
pub(crate) fn short_part(parts: &Parts, number: u32) -> Option<Part<'_>>
    ensures { (part : ℕ → List ℕ) (count : ℕ) → AreParts part count parts.now → IfSome result (IsShort (part number)) }
{
    let number = number as usize;
    if number + 1 >= parts.starts.len() {
        return None;
    }
    let place = place_of(parts, number);
    if place.count > 32 {
        return None;
    }
    Some(Part {
        bytes: parts.bytes.as_slice(),
        from: place.from,
        count: place.count,
    })
}

/// Appends the text of a number.
#[inline(always)]
pub(crate) fn push_part(
    buffer: &mut Vec<u8>,
    parts: &Parts,
    number: usize,
) -> Result<(), AllocError>
    requires { (part : ℕ → List ℕ) × (count : ℕ) × AreParts part count parts.now × (number < count) }
    ensures taken { (part : ℕ → List ℕ) (count : ℕ) → AreParts part count parts.now → OnOk result (HasTaken buffer.old buffer.new (part number)) }
    ensures grows { vec_len buffer.old ≤ vec_len buffer.new }
{
    let place = place_of(parts, number);
    let bytes = parts.bytes.as_slice();
    if place.count <= 32 {
        return append_short(buffer, bytes, place.from, place.count);
    }
    push_bytes(buffer, &bytes[place.from..place.from + place.count])
}
