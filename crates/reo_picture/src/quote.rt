//! Texts in quotes.
ghost use Rattle.std.specs.Prelude.{flat_map};
ghost use Rattle.reo_picture.specs.Buffer.{Adds};
ghost use Rattle.reo_picture.specs.Picture.{quoted, quoted_byte};

use reo_trace::push_bytes;
use std::alloc::AllocError;

fn push_quoted_byte(buffer: &mut Vec<u8>, byte: u8) -> Result<(), AllocError>
    ensures { Adds buffer.old buffer.new result (quoted_byte byte) }
{
    match byte {
        b'"' => push_bytes(buffer, b"\\\""),
        b'\\' => push_bytes(buffer, b"\\\\"),
        b'&' => push_bytes(buffer, b"&amp;"),
        low if low < 32 => push_bytes(buffer, b" "),
        plain => push_bytes(buffer, &[plain]),
    }
}

fn push_quoted_bytes(buffer: &mut Vec<u8>, bytes: &[u8]) -> Result<(), AllocError>
    ensures { Adds buffer.old buffer.new result (flat_map quoted_byte bytes.now) }
{
    for byte in bytes {
        push_quoted_byte(buffer, *byte)?;
    }
    Ok(())
}

/// Appends a text in quotes.
pub(crate) fn push_quoted(buffer: &mut Vec<u8>, bytes: &[u8]) -> Result<(), AllocError>
    ensures { Adds buffer.old buffer.new result (quoted bytes.now) }
{
    push_bytes(buffer, b"\"")?;
    push_quoted_bytes(buffer, bytes)?;
    push_bytes(buffer, b"\"")
}
