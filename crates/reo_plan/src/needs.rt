//! Which offers firings want, as bits: the bit of a port is its number's remainder by 64.
ghost use Rattle.std.specs.Prelude.{◌≡◌, ℕ, ◌<◌, ◌^◌, List, Bool, true};
ghost use Rattle.std.specs.Int.RustNames.{bit_and};
ghost use Rattle.reo_net.specs.declared.circuit.RawCircuit.{RawCircuit};
ghost use Rattle.reo_fabric.specs.declared.reading.Reading.{Reading as AnyReading};
ghost use Rattle.reo_plan.specs.inside.Asks.{so_in, IsNeeds};
ghost use Rattle.reo_plan.specs.inside.Marks.{Misses};
ghost use Rattle.reo_plan.specs.inside.Needs.{offers_at, some_offer};

use crate::marks::{with_bit, without_bit};
use crate::slots::giver_at;
use reo_flow::{Fact, Giver};

/// The bits with that of the offer that a fact asks for, or of which it asks the datum.
fn with_need(needs: u64, slots: &[Giver], fact: &Fact) -> u64
    ensures { (c : RawCircuit) (texts : List (List ℕ)) (reading : AnyReading) (word : ℕ) → Misses (some_offer reading.ports) word → so_in c texts reading slots.now fact.now ≡ true → bit_and word needs ≡ 0 → bit_and word result ≡ 0 }
{
    match fact {
        Fact::Offered(port) => with_bit(needs, *port % 64),
        Fact::Known(slot) => match giver_at(slots, *slot) {
            Giver::Port(port) => with_bit(needs, port % 64),
            _ => needs,
        },
        _ => needs,
    }
}

/// The bits of the offers that these facts ask for.
pub(crate) fn needs_of(slots: &[Giver], facts: &[Fact]) -> u64
    ensures { (c : RawCircuit) → IsNeeds c slots.now facts.now result }
{
    let mut needs = 0;
    for fact in facts {
        needs = with_need(needs, slots, fact);
    }
    needs
}

/// The bits without that of a port, where something is offered there.
fn without_offer(missing: u64, words: &(u32, u64, u64)) -> u64
    ensures kept { (j : ℕ) → bit_and missing (2 ^ j) ≡ 0 → bit_and result (2 ^ j) ≡ 0 }
    ensures offer { Misses (λ j. offers_at j words.now) result }
{
    if words.1 == 1 {
        without_bit(missing, words.0 % 64)
    } else {
        missing
    }
}

/// The bits of which no port has an offer.
pub(crate) fn unoffered(ports: &[(u32, u64, u64)]) -> u64
    ensures { Misses (some_offer ports.now) result }
{
    let mut missing = u64::MAX;
    for words in ports {
        missing = without_offer(missing, words);
    }
    missing
}
