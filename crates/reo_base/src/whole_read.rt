ghost use Rattle.std.specs.Prelude.{◌≡◌, ◌+◌, ◌≤◌, IfOk, OnOk, IsErrOf, vec_len};
ghost use Rattle.reo_base.specs.declared.whole_read.ReadRefusal.TheVariants.{Fault, NoMemory};
ghost use Rattle.reo_base.specs.Faults.{Rose};
ghost use Rattle.reo_base.specs.Streams.{IsReadWhole, LosesFirst, LosesAtMost, HasAtMost, HasMoreThan, RisesAtMost};

use crate::{Failed, Source};
use std::alloc::{AllocError, Global};
use thiserror::Error;

/// Why a source was not read to its end.
#[derive(Clone, Copy, Debug, PartialEq, Eq, Error)]
pub enum ReadRefusal {
    #[error("a read failed")]
    Fault,
    #[error("the input is too long")]
    TooLong,
    #[error("out of memory")]
    NoMemory,
}

impl From<Failed> for ReadRefusal {
    ghost from_gives = { λ _ e. e ≡ Fault };

    fn from(_: Failed) -> Self {
        ReadRefusal::Fault
    }
}

impl From<AllocError> for ReadRefusal {
    ghost from_gives = { λ _ e. e ≡ NoMemory };

    fn from(_: AllocError) -> Self {
        ReadRefusal::NoMemory
    }
}

const PIECE: usize = 8 * 1024;

/// Reads a source to its end, where it has at most `max` bytes. It takes at most `max + 1` bytes,
/// and each read but the last takes one at least.
pub fn read_all<S: Source>(
    alloc: Global,
    source: &mut S,
    max: usize,
) -> Result<Vec<u8>, ReadRefusal>
    ensures whole { IfOk result (λ bytes. IsReadWhole (S.left source.old) (S.left source.new) bytes.items) }
    ensures within { IfOk result (λ bytes. vec_len bytes ≤ max) }
    ensures fits { OnOk result (HasAtMost (S.left source.old) max) }

    // Each refusal but want of memory has its cause.
    ensures fault { IsErrOf result ReadRefusal.Fault → Rose (S.faults source.old) (S.faults source.new) }
    ensures too_long { IsErrOf result ReadRefusal.TooLong → HasMoreThan (S.left source.old) max }

    // What is gone: byte `max + 1` just where the input is too long.
    ensures taken { IsErrOf result ReadRefusal.TooLong → LosesFirst (S.left source.old) (S.left source.new) (max + 1) }
    ensures untaken { (IsErrOf result ReadRefusal.TooLong → ⊥) → LosesAtMost (S.left source.old) (S.left source.new) max }

    ensures calls { RisesAtMost (S.reads source.old) (S.reads source.new) (max + 1) }
    // The count of faults: it never falls, and only a fault raises it.
    ensures later { S.faults source.old ≤ S.faults source.new }
    ensures kept { (IsErrOf result ReadRefusal.Fault → ⊥) → S.faults source.new ≡ S.faults source.old }
{
    let mut buffer = [0; PIECE];
    let mut bytes = Vec::new(alloc);
    'pieces: loop {
        let free = max - bytes.len();
        let room = free.min(PIECE - 1) + 1;
        let count = source.read(&mut buffer[..room])?;
        if count == 0 {
            return Ok(bytes);
        }
        if count > free {
            return Err(ReadRefusal::TooLong);
        }
        bytes.extend_from_slice(&buffer[..count])?;
    }
}
