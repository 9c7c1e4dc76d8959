ghost use Rattle.std.specs.Prelude.{◌≡◌, ℕ, List, length};
ghost use Rattle.std.specs.declared.option.Option.{Option};
ghost use Rattle.std.specs.Io.KnownBytes.{WriteAppends};
ghost use Rattle.reo_base.specs.Faults.{HasCause};
ghost use Rattle.reo_base.specs.Streams.{TakesSome};

use crate::Failed;

/// Where bytes are written to.
pub trait Sink {
    /// The bytes that the sink holds, where it tells them.
    ghost written: { Self → Option (List ℕ) };

    /// How many writes have failed, up to the last value of a `u64`.
    ghost faults: { Self → ℕ };

    /// Appends some first bytes of `buf`, and returns how many.
    fn write(&mut self, buf: &[u8]) -> Result<usize, Failed>
        ensures some { TakesSome result buf.now }
        ensures bytes { WriteAppends (written self.old) (written self.new) result buf.now }
        ensures nothing { length buf.now ≡ 0 → result ≡ Ok 0 }
        ensures cause { HasCause (faults self.old) (faults self.new) result };
}
