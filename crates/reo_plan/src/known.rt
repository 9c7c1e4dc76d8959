//! The value of a slot that is kept: places that follow one another mostly share a slot.
ghost use Rattle.std.specs.Prelude.{◌≡◌};
ghost use Rattle.reo_plan.specs.inside.Slots.{slot_value};
ghost use Rattle.reo_plan.specs.inside.Known.{IsKnown};

use crate::evaluate::slot_value;
use crate::sources::Sources;
use reo_flow::Giver;
use reo_net::Net;
use reo_value::{Lexicon, Value};

/// A slot and what is in it.
#[derive(Clone, Copy)]
pub(crate) struct Known {
    pub(crate) slot: u32,
    pub(crate) value: Option<Value>,
}

/// A slot with what is in it.
#[inline(always)]
pub(crate) fn known_at<S: Sources>(
    net: &Net,
    texts: &Lexicon,
    sources: &S,
    slots: &[Giver],
    slot: u32,
) -> Known
    ensures known { IsKnown net.now texts.now (S.sources sources.now) slots.now result }
    ensures slot { result.slot ≡ slot }
{
    Known {
        slot,
        value: slot_value(net, texts, sources, slots, slot),
    }
}

/// Goes to a slot, of which the value is found anew only where it is another one.
#[inline(always)]
pub(crate) fn turn_to<S: Sources>(
    known: &mut Known,
    net: &Net,
    texts: &Lexicon,
    sources: &S,
    slots: &[Giver],
    slot: u32,
)
    requires { IsKnown net.now texts.now (S.sources sources.now) slots.now known.old }
    ensures known { IsKnown net.now texts.now (S.sources sources.now) slots.now known.new }
    ensures slot { known.new.slot ≡ slot }
{
    if known.slot != slot {
        *known = known_at(net, texts, sources, slots, slot);
    }
}
