//! Plans: what a circuit's firings ask and do, for whoever chooses by readings.
ghost use Rattle.std.specs.Prelude.{◌≡◌, ℕ, ◌≤◌, length, map, position, IfOk, OnOk, Option};
ghost use Rattle.std.specs.Option.{option_map};
ghost use Rattle.reo_cut.specs.Cut.{IsCut};
ghost use Rattle.reo_fabric.specs.declared.fabric.Fabric.{Fabric as AnyFabric};
ghost use Rattle.reo_fabric.specs.declared.reading.Reading.{Reading as AnyReading};
ghost use Rattle.reo_fabric.specs.declared.entry.Entry.{Entry as AnyEntry};
ghost use Rattle.reo_flow.specs.Allows.{AreTables, Allows};
ghost use Rattle.reo_flow.specs.Flow.{IsPlanned, planned_choice};
ghost use Rattle.reo_flow.proofs.PlanLaw.{chooses_planned};
ghost use Rattle.reo_plan.specs.Plan.{PlanState, firings_in, plan_of};
ghost use Rattle.reo_plan.specs.inside.Plans.{fits};

use crate::asks::{Shared, shared_in};
use crate::back::pairs_into;
use crate::compiler::plans_of;
use crate::first::first_row;
use crate::givers::cell_numbers;
use crate::row::Row;
use crate::write::write_row;
use reo_cut::Cut;
use reo_fabric::{Choice, Decider, EntryRef, Reading, Room};
use reo_net::Net;
use reo_product::RegionTable;
use reo_value::{Lexicon, Value};
use sqlite_items::{Items, at};
use std::alloc::{AllocError, Global};
use std::marker::Model;

/// A circuit's firings, each with what it asks and where its data go, made once from the tables of the regions.
#[derive(Drop)]
pub struct Plan<'a> {
    net: &'a Net,
    texts: &'a Lexicon,
    tables: &'a [RegionTable],
    plans: Items<Items<Row>>,
    shared: Items<Shared>,
}

impl<'a> Model for Plan<'a> {
    ghost use Rattle.std.specs.Prelude.{map};
    ghost use Rattle.std.specs.Coded.{codes};
    ghost use Rattle.reo_guard.specs.contracts.guard.Guard as guard;
    ghost use Rattle.reo_plan.specs.Plan.{PlanState as State, firings_in, plan_of};
    ghost use Rattle.reo_flow.specs.Allows.{AreTables};
    ghost use Rattle.reo_plan.specs.inside.Plans.{ArePlans};
    ghost use Rattle.reo_plan.specs.inside.Asks.{AreShared};

    ghost Value = { State };

    ghost coded = { Prim.hlevel (codes, guard.the_row.coded) };

    ghost view = { λ p. plan_of p.net.now p.texts.now p.tables.now };

    ghost invariant = { λ p. AreTables p.net.now (map firings_in p.tables.now) × ArePlans p.net.now (map firings_in p.tables.now) p.plans × AreShared p.net.now p.plans p.shared };
}

/// A plan of a circuit that is cut so, and whose regions have these tables.
pub fn compile<'a>(
    alloc: Global,
    net: &'a Net,
    texts: &'a Lexicon,
    cut: &Cut,
    tables: &'a [RegionTable],
) -> Result<Plan<'a>, AllocError>
    requires cut { IsCut net.now cut.now }
    requires tables { AreTables net.now (map firings_in tables.now) }
    ensures plan { IfOk result (λ plan. plan ≡ plan_of net.now texts.now tables.now) }
{
    let numbers = cell_numbers(alloc, net)?;
    let plans = plans_of(alloc, net, &numbers, cut.cells.as_slice(), tables)?;
    let shared = shared_in(alloc, plans.as_slice())?;
    Ok(Plan {
        net,
        texts,
        tables,
        plans,
        shared,
    })
}

impl<'a> Decider for Plan<'a> {
    ghost use Rattle.reo_flow.specs.Flow.{IsPlanned, planned_choice};
    ghost use Rattle.reo_flow.proofs.PlanLaw.{chooses_planned};

    ghost allows = { λ plan. IsPlanned plan.circuit plan.texts plan.tables };

    ghost first_choice = { λ plan. planned_choice plan.circuit plan.texts plan.tables };

    ghost chooses = { λ plan region reading. chooses_planned plan.circuit plan.texts plan.tables region reading };

    fn choose(&self, region: u32, reading: &Reading) -> Option<Choice> {
        let rows = at(self.plans.as_slice(), region as usize)?;
        let shared = &self.shared.as_slice()[region as usize];
        let first = first_row(self.net, self.texts, reading, shared, rows.as_slice())?;
        Some(Choice(first as u32))
    }

    fn entry_into(&self, choice: Choice, reading: &Reading, room: &mut Room) {
        let rows = self.plans.as_slice()[reading.region as usize].as_slice();
        let row = &rows[choice.0 as usize];
        write_row(room, self.net, self.texts, reading, row, choice.0);
    }
}

impl<'a> Plan<'a> {
    /// Makes a list the pairs of the step of an entry that some reading allowed.
    pub fn step_into(
        &self,
        entry: &EntryRef<'_>,
        pairs: &mut Vec<(u32, Value)>,
    ) -> Result<(), AllocError>
        requires allowed { (reading : AnyReading) × Allows self.now.circuit self.now.texts self.now.tables entry.now.region reading entry.now }
        ensures step { OnOk result ((reading : AnyReading) (allowed : Allows self.now.circuit self.now.texts self.now.tables entry.now.region reading entry.now) → pairs.new.items ≡ allowed.step.pairs) }
    {
        let _nodes = self.net.nodes();
        let rows = self.plans.as_slice()[entry.region() as usize].as_slice();
        let row = &rows[entry.choice() as usize];
        let slots = row.slots.as_slice();
        let named = row.named.as_slice();
        pairs_into(pairs, self.net, self.texts, entry, slots, named)?;
        Ok(())
    }
}
