//! Who chooses what a region fires.
ghost use Rattle.std.specs.Prelude.{◌≡◌, ℕ, Option, Some};
ghost use Rattle.std.specs.Option.{option_map};
ghost use Rattle.reo_fabric.specs.declared.entry.Entry.{Entry as AnyEntry};
ghost use Rattle.reo_fabric.specs.declared.reading.Reading.{Reading as AnyReading};
ghost use Rattle.reo_fabric.specs.Decider.{ChoosesFrom};
ghost use Rattle.reo_fabric.specs.Room.{HasRoomFor, IsRewritten};

use crate::reading::{Choice, Reading};
use crate::room::Room;

/// It says which entries a reading allows, and chooses one of them.
pub trait Decider {
    /// The reading allows the region this entry.
    ghost allows: { Self → ℕ → AnyReading → AnyEntry → Type 0 };

    /// The choice for a region and a reading.
    ghost first_choice: { Self → ℕ → AnyReading → Option ℕ };

    fn choose(&self, region: u32, reading: &Reading) -> Option<Choice>
        ensures { option_map (λ choice. choice.0) result ≡ first_choice self.now region reading.now };

    /// Writes the entry of the choice for this reading of its region.
    fn entry_into(&self, choice: Choice, reading: &Reading, room: &mut Room)
        requires chosen { first_choice self.now reading.now.region reading.now ≡ Some choice.0 }
        requires region { room.old.entry.region ≡ reading.now.region }
        requires room { (entry : AnyEntry) → allows self.now reading.now.region reading.now entry → HasRoomFor room.old entry }
        ensures allowed { allows self.now reading.now.region reading.now room.new.entry }
        ensures chosen { room.new.entry.choice ≡ choice.0 }
        ensures rewritten { IsRewritten room.old room.new };

    /// There is a choice just where some entry is allowed, and then exactly one entry is allowed with it.
    ghost chooses: { (decider : Self) (region : ℕ) (reading : AnyReading) → ChoosesFrom (allows decider region reading) (first_choice decider region reading) };
}

impl<D: Decider> Decider for &D {
    ghost allows = { λ decider. D.allows decider.now };

    ghost first_choice = { λ decider. D.first_choice decider.now };

    ghost chooses = { λ decider. D.chooses decider.now };

    fn choose(&self, region: u32, reading: &Reading) -> Option<Choice> {
        (**self).choose(region, reading)
    }

    fn entry_into(&self, choice: Choice, reading: &Reading, room: &mut Room) {
        (**self).entry_into(choice, reading, room);
    }
}
