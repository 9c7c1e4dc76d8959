ghost use Rattle.std.specs.Prelude.{◌≡◌, ◌≤◌, length, drop, vec_len};
ghost use Rattle.std.specs.declared.option.Option.TheVariants.{Some};
ghost use Rattle.std.specs.Io.{ReadsAtMost};
ghost use Rattle.std.specs.Io.KnownBytes.{ReadConsumes};
ghost use Rattle.reo_base.specs.Faults.{HasCause};
ghost use Rattle.reo_base.specs.Streams.{CountsOne};
ghost use Rattle.reo_base.specs.SourceState.{read_result, after_read};

use crate::{Failed, Source};
use std::marker::Model;

/// A source over bytes in memory, whose reads may be made to fail.
#[derive(Drop)]
pub struct MemorySource {
    bytes: Vec<u8>,
    taken: usize,
    piece: usize,
    fail_at: Vec<u64>,
    calls: u64,
    faults: u64,
}

impl Model for MemorySource {
    ghost use Rattle.std.specs.Prelude.{◌≤◌, drop, vec_len};
    ghost use Rattle.reo_base.specs.SourceState.{SourceState};

    ghost Value = { SourceState };

    ghost view = { λ s. record {
      left = drop s.taken s.bytes.items;
      piece = s.piece;
      fail_at = s.fail_at.items;
      calls = s.calls;
      faults = s.faults;
    } };

    ghost invariant = { λ s. (1 ≤ s.piece) × (s.taken ≤ vec_len s.bytes) };
}

impl MemorySource {
    /// No read gives more than `piece` bytes. Reads are counted from 1; one whose number `fail_at` has fails.
    pub fn new(bytes: Vec<u8>, piece: usize, fail_at: Vec<u64>) -> MemorySource
        requires { 1 ≤ piece }
        ensures left { result.left ≡ bytes.items }
        ensures piece { result.piece ≡ piece }
        ensures fail_at { result.fail_at ≡ fail_at.items }
        ensures calls { result.calls ≡ 0 }
        ensures faults { result.faults ≡ 0 }
    {
        MemorySource {
            bytes,
            taken: 0,
            piece,
            fail_at,
            calls: 0,
            faults: 0,
        }
    }
}

impl Source for MemorySource {
    ghost left = { λ s. Some s.left };

    ghost faults = { λ s. s.faults };

    ghost reads = { λ s. Some s.calls };

    fn read(&mut self, buf: &mut [u8]) -> Result<usize, Failed>
        ensures bound { ReadsAtMost result buf.new }
        ensures bytes { ReadConsumes (Some self.old.left) (Some self.new.left) result buf.new }
        ensures cause { HasCause self.old.faults self.new.faults result }
        ensures counted { CountsOne (Some self.old.calls) (Some self.new.calls) }
        ensures answer { result ≡ read_result self.old (length buf.old) }
        ensures after { self.new ≡ after_read self.old (length buf.old) }
    {
        self.calls = self.calls.saturating_add(1);
        if self.fail_at.contains(&self.calls) {
            self.faults = self.faults.saturating_add(1);
            return Err(Failed);
        }
        let rest = &self.bytes[self.taken..];
        let count = self.piece.min(buf.len()).min(rest.len());
        buf[..count].copy_from_slice(&rest[..count]);
        self.taken += count;
        Ok(count)
    }
}
