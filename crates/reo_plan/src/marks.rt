//! Which of the first facts are known to be so for a reading, and which are known to fail.
ghost use Rattle.std.specs.Prelude.{◌≡◌, ◌≢◌, ℕ, ◌<◌, ◌≤◌, ◌^◌, ◌⊎◌, Bool, not, true};
ghost use Rattle.std.specs.Int.RustNames.{bit_and};
ghost use Rattle.std.specs.Int.{bit_at};
ghost use Rattle.reo_plan.specs.inside.Marks.{AreMarks, IsMarked, IsMask, Misses};

/// A bit for each of the first 64 facts of a region: it is known to be so, or it is known to fail.
#[derive(Clone, Copy)]
pub(crate) struct Marks {
    pub(crate) met: u64,
    pub(crate) failed: u64,
}

pub(crate) fn bit(number: u32) -> u64
    requires { number < 64 }
    ensures { result ≡ 2 ^ number }
{
    1 << number
}

/// The word with the bit of this number, where it has one.
pub(crate) fn with_bit(word: u64, number: u32) -> u64
    ensures misses { (p : ℕ → Bool) (other : ℕ) → Misses p other → p number ≡ true → bit_and other word ≡ 0 → bit_and other result ≡ 0 }
    ensures adds { (p : ℕ → Bool) → Misses p word → not (p number) ≡ true → Misses p result }
    ensures sets { number < 64 → bit_at result number ≡ 1 }
    ensures keeps { (j : ℕ) → bit_at word j ≡ 1 → bit_at result j ≡ 1 }
{
    if number < 64 {
        word | bit(number)
    } else {
        word
    }
}

/// The bits of these numbers.
pub(crate) fn mask_of(numbers: &[u32]) -> u64
    ensures mask { IsMask numbers.now result }
    ensures marked { IsMarked numbers.now result }
{
    let mut mask = 0;
    for number in numbers {
        mask = with_bit(mask, *number);
    }
    mask
}

pub(crate) fn no_marks() -> Marks
    ensures { (p : ℕ → Bool) → AreMarks p result }
{
    Marks { met: 0, failed: 0 }
}

/// Whether the fact is known to be so.
pub(crate) fn is_known(marks: &Marks, number: u32) -> bool
    ensures { (p : ℕ → Bool) → AreMarks p marks.now → result ≡ true → p number ≡ true }
{
    number < 64 && marks.met & bit(number) != 0
}

/// Keeps in mind whether the fact is so.
pub(crate) fn mark(marks: &mut Marks, number: u32, is_so: bool)
    ensures { (p : ℕ → Bool) → p number ≡ is_so → AreMarks p marks.old → AreMarks p marks.new }
{
    if is_so {
        marks.met = with_bit(marks.met, number);
    } else {
        marks.failed = with_bit(marks.failed, number);
    }
}

/// The bits of a mask of which the facts are not known to be so.
pub(crate) fn unmarked(met: u64, mask: u64) -> u64
    ensures left { (p : ℕ → Bool) → Misses (λ j. not (p j)) met → (j : ℕ) → bit_at mask j ≡ 1 → (p j ≡ true) ⊎ (bit_at result j ≡ 1) }
    ensures within { (j : ℕ) → bit_at result j ≡ 1 → bit_at mask j ≡ 1 }
{
    mask & !met
}

/// The word without the bit of this number.
pub(crate) fn without_bit(word: u64, number: u32) -> u64
    requires { number < 64 }
    ensures own { bit_at result number ≡ 0 }
    ensures others { (j : ℕ) → j ≢ number → bit_at result j ≡ bit_at word j }
    ensures less { result ≤ word }
{
    word & !bit(number)
}

/// The number of the lowest bit.
pub(crate) fn lowest(word: u64) -> u32
    requires { word ≢ 0 }
    ensures small { result < 64 }
    ensures bit { bit_at word result ≡ 1 }
{
    word.trailing_zeros()
}
