//! The pairs of an entry's step.
ghost use Rattle.std.specs.Prelude.{◌≡◌, ◌++◌, OnOk};
ghost use Rattle.reo_flow.specs.Flow.{sources_of};
ghost use Rattle.reo_plan.specs.inside.Slots.{slot_value};
ghost use Rattle.reo_plan.specs.inside.Rows.{values_at};
ghost use Rattle.reo_plan.specs.inside.Sides.{one_place};
ghost use Rattle.reo_plan.specs.inside.Back.{reading_back};

use crate::known::{known_at, turn_to};
use reo_fabric::EntryRef;
use reo_flow::Giver;
use reo_net::Net;
use reo_value::{Lexicon, Value};
use std::alloc::AllocError;

fn add_pair(
    pairs: &mut Vec<(u32, Value)>,
    name: u32,
    value: &Option<Value>,
) -> Result<(), AllocError>
    ensures { OnOk result (pairs.new.items ≡ pairs.old.items ++ one_place name value.now) }
{
    if let Some(value) = value {
        pairs.push((name, *value))?;
    }
    Ok(())
}

/// Makes a list the names with the values of their slots.
pub(crate) fn pairs_into(
    pairs: &mut Vec<(u32, Value)>,
    net: &Net,
    texts: &Lexicon,
    entry: &EntryRef<'_>,
    slots: &[Giver],
    named: &[(u32, u32)],
) -> Result<(), AllocError>
    ensures { OnOk result (pairs.new.items ≡ values_at (slot_value net.now texts.now (sources_of (reading_back entry.now)) slots.now) named.now) }
{
    pairs.clear();
    let mut known = known_at(net, texts, entry, slots, 0);
    for place in named {
        turn_to(&mut known, net, texts, entry, slots, place.1);
        add_pair(pairs, place.0, &known.value)?;
    }
    Ok(())
}
