ghost use Rattle.std.specs.Prelude.{◌<◌, length, take, IfErr, OnOk};
ghost use Rattle.reo_base.specs.Faults.{HasCause};
ghost use Rattle.reo_base.specs.Streams.{IsExtended};

use crate::Sink;
use thiserror::Error;

/// A write that failed, after the first `written` bytes were appended.
#[derive(Clone, Copy, Debug, PartialEq, Eq, Error)]
#[error("a write failed after {written} bytes")]
pub struct WriteFault {
    pub written: usize,
}

/// Appends all of `bytes`, in as many writes as the sink makes of it.
pub fn write_whole<K: Sink>(sink: &mut K, bytes: &[u8]) -> Result<(), WriteFault>
    ensures whole { OnOk result (IsExtended (K.written sink.old) (K.written sink.new) bytes.now) }
    ensures front { IfErr result (λ fault. IsExtended (K.written sink.old) (K.written sink.new) (take fault.written bytes.now)) }
    ensures short { IfErr result (λ fault. fault.written < length bytes.now) }
    ensures cause { HasCause (K.faults sink.old) (K.faults sink.new) result }
{
    let mut written = 0;
    while written < bytes.len() {
        match sink.write(&bytes[written..]) {
            Ok(count) => written += count,
            Err(_) => return Err(WriteFault { written }),
        }
    }
    Ok(())
}
