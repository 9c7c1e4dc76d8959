ghost use Rattle.std.specs.Prelude.{ℕ, List};
ghost use Rattle.std.specs.declared.option.Option.{Option};
ghost use Rattle.std.specs.declared.option.Option.TheVariants.{None};
ghost use Rattle.std.specs.Io.{ReadsAtMost};
ghost use Rattle.std.specs.Io.KnownBytes.{ReadConsumes};
ghost use Rattle.reo_base.specs.Faults.{HasCause};
ghost use Rattle.reo_base.specs.Streams.{CountsOne};

use crate::Failed;

/// Where bytes are read from.
pub trait Source {
    /// The bytes that are left, where the source tells them.
    ghost left: { Self → Option (List ℕ) };

    /// How many reads have failed, up to the last value of a `u64`.
    ghost faults: { Self → ℕ };

    /// How many reads were made, up to the last value of a `u64`, where the source counts them.
    ghost reads: { Self → Option ℕ } = { λ _. None };

    /// Reads some of the bytes that are left into the front of `buf`, and returns how many.
    /// 0 for a nonempty `buf` means that the source has ended.
    fn read(&mut self, buf: &mut [u8]) -> Result<usize, Failed>
        ensures bound { ReadsAtMost result buf.new }
        ensures bytes { ReadConsumes (left self.old) (left self.new) result buf.new }
        ensures cause { HasCause (faults self.old) (faults self.new) result }
        ensures counted { CountsOne (reads self.old) (reads self.new) };
}
