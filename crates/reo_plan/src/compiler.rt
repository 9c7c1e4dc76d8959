//! The rows of all firings.
ghost use Rattle.std.specs.Prelude.{◌≡◌, ◌≤◌, [], length, map, All, IfOk, OnOk};
ghost use Rattle.reo_net.specs.Names.{name_count};
ghost use Rattle.reo_flow.specs.Places.{buffers};
ghost use Rattle.reo_plan.specs.inside.Cells.{cell_numbers};
ghost use Rattle.reo_product.specs.Table.{names_in};
ghost use Rattle.reo_plan.specs.Plan.{firings_in};
ghost use Rattle.reo_plan.specs.inside.Rows.{HasSlots, IsFilled, IsRow};
ghost use Rattle.reo_plan.specs.inside.Plans.{AreRows, ArePlans, IsOfNames};

use crate::asks::presence_first;
use crate::facts::facts_of;
use crate::givers::{givers_of, incoming_of};
use crate::places::{cell_slots, empty_slots, fill_slots, named_slots, port_slots};
use crate::row::Row;
use crate::slots::Givers;
use reo_cut::CellCut;
use reo_flow::Giver;
use reo_net::Net;
use reo_product::{Firing, RegionTable};
use sqlite_items::Items;
use std::alloc::{AllocError, Global};

/// The row of the firing with these names, which have these slots.
fn row_with(
    alloc: Global,
    net: &Net,
    numbers: &[u32],
    names: &[u32],
    table: &[Option<u32>],
    slots: Items<Giver>,
) -> Result<Row, AllocError>
    requires numbers { numbers.now ≡ cell_numbers net.now }
    requires names { IsOfNames net.now names.now }
    requires slots { HasSlots net.now names.now names.now slots table.now }
    ensures { IfOk result (IsRow net.now names.now) }
{
    let asked = facts_of(alloc, net, numbers, table, names)?;
    let facts = presence_first(alloc, slots.as_slice(), asked.as_slice())?;
    let takes = cell_slots(alloc, net, numbers, table, names, true)?;
    let fills = cell_slots(alloc, net, numbers, table, names, false)?;
    let puts = port_slots(alloc, net, table, names, true)?;
    let gets = port_slots(alloc, net, table, names, false)?;
    let named = named_slots(alloc, table, names)?;
    Ok(Row {
        slots,
        facts,
        takes,
        fills,
        puts,
        gets,
        named,
    })
}

/// Notes of each of these names its place among them: a guess for who asks for it later.
fn note_places(places: &mut Vec<usize>, names: &[u32]) {
    for place in 0..names.len() {
        let name = names[place] as usize;
        if name < places.len() {
            places[name] = place;
        }
    }
}

/// The row of the firing with these names, by a table that is empty, and is empty again then.
pub(crate) fn row_of(
    alloc: Global,
    net: &Net,
    numbers: &[u32],
    names: &[u32],
    table: &mut Vec<Option<u32>>,
    places: &mut Vec<usize>,
) -> Result<Row, AllocError>
    requires numbers { numbers.now ≡ cell_numbers net.now }
    requires names { IsOfNames net.now names.now }
    requires empty { IsFilled (name_count net.now) [] table.old.items }
    ensures empty { OnOk result (IsFilled (name_count net.now) [] table.new.items) }
    ensures row { IfOk result (IsRow net.now names.now) }
{
    let incoming = incoming_of(alloc, net, names)?;
    let incoming = incoming.as_slice();
    let known = givers_of(alloc, net, numbers, names, incoming)?;
    note_places(places, names);
    let known = known.as_slice();
    let givers = Givers::Names(net, numbers, names, incoming, known, places.as_slice());
    let mut slots = Items::new(alloc);
    fill_slots(net, &givers, names, &mut slots, table)?;
    let row = row_with(alloc, net, numbers, names, table.as_slice(), slots)?;
    empty_slots(net, names, table);
    Ok(row)
}

/// The rows of a region's firings.
fn rows_of(
    alloc: Global,
    net: &Net,
    numbers: &[u32],
    firings: &[Firing],
    table: &mut Vec<Option<u32>>,
    places: &mut Vec<usize>,
) -> Result<Items<Row>, AllocError>
    requires numbers { numbers.now ≡ cell_numbers net.now }
    requires names { All (λ firing. IsOfNames net.now firing.names) firings.now }
    requires empty { IsFilled (name_count net.now) [] table.old.items }
    ensures empty { OnOk result (IsFilled (name_count net.now) [] table.new.items) }
    ensures rows { IfOk result (AreRows net.now (map names_in firings.now)) }
{
    let mut rows = Items::new(alloc);
    for firing in firings {
        let row = row_of(alloc, net, numbers, firing.names.as_slice(), table, places)?;
        rows.push(row)?;
    }
    Ok(rows)
}

/// The rows of all regions.
pub(crate) fn plans_of(
    alloc: Global,
    net: &Net,
    numbers: &[u32],
    cells: &[CellCut],
    tables: &[RegionTable],
) -> Result<Items<Items<Row>>, AllocError>
    requires numbers { numbers.now ≡ cell_numbers net.now }
    requires cells { map (λ cell. cell.channel) cells.now ≡ buffers net.now }
    requires names { All (λ table. All (λ firing. IsOfNames net.now firing.names) table.firings) tables.now }
    requires small { All (λ table. length table.firings ≤ 4096) tables.now }
    ensures { IfOk result (ArePlans net.now (map firings_in tables.now)) }
{
    let _ = cells;
    let mut slots = vec![in alloc; None; net.names() as usize]?;
    let mut places = vec![in alloc; 0; net.names() as usize]?;
    let mut plans = Items::new(alloc);
    for table in tables {
        let rows = rows_of(
            alloc,
            net,
            numbers,
            table.firings.as_slice(),
            &mut slots,
            &mut places,
        )?;
        plans.push(rows)?;
    }
    Ok(plans)
}
