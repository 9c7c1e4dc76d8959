//! A room behind the text of a buffer, into which parts of a line are written with one look at how long it is.
ghost use Rattle.std.specs.Prelude.{◌≡◌, ℕ, ◌+◌, ◌≤◌, [], ◌∷◌, length, take, OnOk, vec_len};
ghost use Rattle.reo_trace.specs.Buffer.{HasWritten};
ghost use Rattle.reo_trace.specs.Parts.{part_text};

use std::alloc::AllocError;

/// Makes a room of so many bytes behind those that are used.
#[inline(always)]
pub(crate) fn make_room(buffer: &mut Vec<u8>, used: usize, count: usize) -> Result<(), AllocError>
    requires used { used ≤ vec_len buffer.old }
    requires count { count ≤ 16384 }
    ensures room { OnOk result (used + count ≤ vec_len buffer.new) }
    ensures kept { take used buffer.new.items ≡ take used buffer.old.items }
    ensures grows { vec_len buffer.old ≤ vec_len buffer.new }
{
    if buffer.len() - used < count {
        return widen(buffer, used + count);
    }
    Ok(())
}

/// Makes a buffer at least so long, a few bytes at a time: what is far longer than its lines was mostly made for nothing.
fn widen(buffer: &mut Vec<u8>, len: usize) -> Result<(), AllocError>
    ensures room { OnOk result (len ≤ vec_len buffer.new) }
    ensures kept { (used : ℕ) → used ≤ vec_len buffer.old → take used buffer.new.items ≡ take used buffer.old.items }
    ensures grows { vec_len buffer.old ≤ vec_len buffer.new }
{
    while buffer.len() < len {
        buffer.extend_from_slice(&[0; 512])?;
    }
    Ok(())
}

/// So many bytes from a place on, behind which at least as many stand as make 32.
#[derive(Drop)]
pub(crate) struct Part<'a> {
    pub(crate) bytes: &'a [u8],
    pub(crate) from: usize,
    pub(crate) count: usize,
}

/// Writes a short part, and what stands behind it up to 32 bytes: bytes that are as long at each call need no call to be
/// copied. Answers where it ends.
#[inline(always)]
pub(crate) fn put_short(room: &mut [u8], used: usize, part: Part<'_>) -> usize
    requires room { used + 32 ≤ length room.old }
    requires part { part.from + 32 ≤ length part.bytes.now }
    requires count { part.count ≤ 32 }
    ensures written { HasWritten room.old used room.new result (part_text part.entry) }
    ensures end { result ≤ used + 32 }
    ensures length { length room.new ≡ length room.old }
{
    let mut copied = [0; 32];
    copied.copy_from_slice(&part.bytes[part.from..part.from + 32]);
    room[used..used + 32].copy_from_slice(&copied);
    used + part.count
}

/// Writes one byte, and answers where it ends.
#[inline(always)]
pub(crate) fn put_byte(room: &mut [u8], used: usize, byte: u8) -> usize
    requires { used + 1 ≤ length room.old }
    ensures written { HasWritten room.old used room.new result (byte ∷ []) }
    ensures length { length room.new ≡ length room.old }
{
    room[used] = byte;
    used + 1
}
