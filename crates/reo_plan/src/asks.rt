//! What the firings of a region ask, by the numbers of the facts that they share.
ghost use Rattle.std.specs.Prelude.{◌≡◌, ℕ, ◌+◌, ◌<◌, List, ◌∷◌, [], ◌++◌, length, drop, slice_get, Some, All, IfOk, IfSome, OnOk, Bool, true, ◌&&◌};
ghost use Rattle.std.specs.Bool.{OnTrue};
ghost use Rattle.std.specs.List.{list_all};
ghost use Rattle.reo_net.specs.declared.circuit.RawCircuit.{RawCircuit};
ghost use Rattle.reo_fabric.specs.declared.reading.Reading.{Reading as AnyReading};
ghost use Rattle.reo_flow.specs.declared.fact.Fact.{Fact as AnyFact};
ghost use Rattle.reo_plan.specs.inside.Slots.{slot_at, AreOrdered, AreMore, Extends, HasFlow};
ghost use Rattle.reo_plan.specs.inside.Asks.{so_in, IsTold, is_direct, is_presence, IsSameFact, IsNumbered, HasAsks, IsAsks, IsShared, AreShared};

use crate::columns::columns_of;
use crate::facts::is_same;
use crate::marks::mask_of;
use crate::needs::needs_of;
use crate::row::{Row, room_for};
use crate::slots::{Givers, giver_at, slot_of};
use reo_flow::{Fact, Giver};
use sqlite_items::Items;
use std::alloc::{AllocError, Global};

/// What one firing asks: facts that it shares, by number and as a mask of the first 64, and others in slots of its own;
/// and the offers that it needs, as bits.
#[derive(Drop)]
pub(crate) struct Asks {
    pub(crate) mask: u64,
    pub(crate) needs: u64,
    pub(crate) numbers: Items<u32>,
    pub(crate) rest: Items<Fact>,
}

/// The facts that firings of a region share, with the slots of their data, and what each firing asks.
#[derive(Drop)]
pub(crate) struct Shared {
    pub(crate) slots: Items<Giver>,
    pub(crate) facts: Items<Fact>,
    pub(crate) asks: Items<Asks>,
    /// Where there are many firings: for each fact, those that ask it.
    pub(crate) columns: Items<u64>,
}

fn is_direct(giver: &Giver) -> bool
    ensures { result ≡ is_direct giver.now }
{
    match giver {
        Giver::Unfed => true,
        Giver::Cell(_) => true,
        Giver::Port(_) => true,
        Giver::Same(_) => false,
        Giver::Image(_, _) => false,
    }
}

/// Whether the fact asks no guard and no function: something is offered, or a cell is empty or full.
pub(crate) fn is_presence(slots: &[Giver], fact: &Fact) -> bool
    ensures { result ≡ is_presence slots.now fact.now }
{
    match fact {
        Fact::Offered(_) => true,
        Fact::Empty(_) => true,
        Fact::Known(slot) => is_direct(&giver_at(slots, *slot)),
        Fact::Met(_, _) => false,
        Fact::Failed(_, _) => false,
    }
}

/// Adds a fact to the one list or the other.
fn add_to(
    first: &mut Items<Fact>,
    second: &mut Items<Fact>,
    fact: &Fact,
    is_first: bool,
) -> Result<(), AllocError>
    ensures { OnOk result ((p : AnyFact → Bool) → (list_all p first.new && list_all p second.new) ≡ ((list_all p first.old && list_all p second.old) && p fact.now)) }
{
    if is_first {
        first.push(*fact)
    } else {
        second.push(*fact)
    }
}

fn add_all(facts: &mut Items<Fact>, more: &[Fact]) -> Result<(), AllocError>
    ensures { OnOk result ((p : AnyFact → Bool) → list_all p facts.new ≡ (list_all p facts.old && list_all p more.now)) }
{
    for fact in more {
        facts.push(*fact)?;
    }
    Ok(())
}

/// Whether a fact asks for an offer of which the next fact asks the datum.
fn is_told(slots: &[Giver], fact: &Fact, next: &Fact) -> bool
    ensures { OnTrue result ((c : RawCircuit) (texts : List (List ℕ)) (reading : AnyReading) → so_in c texts reading slots.now next.now ≡ true → so_in c texts reading slots.now fact.now ≡ true) }
{
    match next {
        Fact::Known(slot) => match giver_at(slots, *slot) {
            Giver::Port(port) => is_same(fact, Fact::Offered(port)),
            _ => false,
        },
        _ => false,
    }
}

/// Whether the next fact tells that this one is so.
fn is_told_by_next(slots: &[Giver], facts: &[Fact], place: usize) -> bool
    requires { place < length facts.now }
    ensures { OnTrue result (IsTold slots.now (drop place facts.now)) }
{
    place + 1 < facts.len() && is_told(slots, &facts[place], &facts[place + 1])
}

/// The facts, with those of presence before the others, and without the offers of which the data are asked.
pub(crate) fn presence_first(
    alloc: Global,
    slots: &[Giver],
    facts: &[Fact],
) -> Result<Items<Fact>, AllocError>
    ensures { IfOk result (λ sorted. (c : RawCircuit) (texts : List (List ℕ)) (reading : AnyReading) → list_all (so_in c texts reading slots.now) sorted ≡ list_all (so_in c texts reading slots.now) facts.now) }
{
    let mut first = room_for(alloc, facts.len())?;
    let mut second = Items::new(alloc);
    for place in 0..facts.len() {
        if !is_told_by_next(slots, facts, place) {
            let fact = &facts[place];
            add_to(&mut first, &mut second, fact, is_presence(slots, fact))?;
        }
    }
    add_all(&mut first, second.as_slice())?;
    Ok(first)
}

/// The shared slot with what is in a slot of a row.
fn shared_slot(own: &[Giver], slots: &mut Items<Giver>, slot: u32) -> Result<u32, AllocError>
    requires { AreOrdered slots.old }
    ensures more { OnOk result (AreMore slots.old slots.new) }
    ensures flow { IfOk result (λ other. (c : RawCircuit) → HasFlow c (slot_at own.now) (slot + 1) slot slots.new other) }
{
    if slot == u32::MAX {
        return Err(AllocError);
    }
    slot_of(&Givers::Slots(own), slots, slot + 1, slot)
}

/// The fact with its datum in a shared slot.
fn shared_fact(own: &[Giver], slots: &mut Items<Giver>, fact: Fact) -> Result<Fact, AllocError>
    requires { AreOrdered slots.old }
    ensures more { OnOk result (AreMore slots.old slots.new) }
    ensures same { IfOk result (λ other. (c : RawCircuit) → IsSameFact c own.now fact slots.new other) }
{
    match fact {
        Fact::Offered(port) => Ok(Fact::Offered(port)),
        Fact::Empty(cell) => Ok(Fact::Empty(cell)),
        Fact::Known(slot) => {
            let other = shared_slot(own, slots, slot)?;
            Ok(Fact::Known(other))
        }
        Fact::Met(channel, slot) => {
            let other = shared_slot(own, slots, slot)?;
            Ok(Fact::Met(channel, other))
        }
        Fact::Failed(channel, slot) => {
            let other = shared_slot(own, slots, slot)?;
            Ok(Fact::Failed(channel, other))
        }
    }
}

/// The number of this fact among the first 64, if there is one.
fn found_fact(facts: &[Fact], fact: Fact) -> Option<u32>
    ensures found { IfSome result (λ number. slice_get facts.now number ≡ Some fact) }
    ensures small { IfSome result (λ number. number < 64) }
{
    for number in 0..facts.len() {
        if number < 64 && is_same(&facts[number], fact) {
            return Some(number as u32);
        }
    }
    None
}

/// The number of this fact among at most 64: one that there is, or a new one.
fn number_of(facts: &mut Items<Fact>, fact: Fact) -> Result<Option<u32>, AllocError>
    ensures more { OnOk result (Extends facts.old facts.new) }
    ensures number { IfOk result (λ found. IfSome found (λ number. slice_get facts.new number ≡ Some fact)) }
    ensures small { IfOk result (λ found. IfSome found (λ number. number < 64)) }
{
    if let Some(number) = found_fact(facts.as_slice(), fact) {
        return Ok(Some(number));
    }
    if facts.len() >= 64 {
        return Ok(None);
    }
    let number = facts.len() as u32;
    facts.push(fact)?;
    Ok(Some(number))
}

/// The number of the shared fact that says the same, if it is to have one. Few slots that functions fill are shared.
fn shared_number(
    own: &[Giver],
    slots: &mut Items<Giver>,
    facts: &mut Items<Fact>,
    fact: Fact,
) -> Result<Option<u32>, AllocError>
    requires { AreOrdered slots.old }
    ensures slots { OnOk result (AreMore slots.old slots.new) }
    ensures facts { OnOk result (Extends facts.old facts.new) }
    ensures number { IfOk result (λ found. IfSome found (λ number. (c : RawCircuit) → IsNumbered c own.now fact slots.new facts.new number)) }
    ensures small { IfOk result (λ found. IfSome found (λ number. number < 64)) }
{
    if slots.len() >= 256 {
        return Ok(None);
    }
    let other = shared_fact(own, slots, fact)?;
    number_of(facts, other)
}

/// Adds a fact to what a row asks.
fn add_ask(
    own: &[Giver],
    slots: &mut Items<Giver>,
    facts: &mut Items<Fact>,
    numbers: &mut Items<u32>,
    rest: &mut Items<Fact>,
    fact: Fact,
) -> Result<(), AllocError>
    requires { AreOrdered slots.old }
    ensures slots { OnOk result (AreMore slots.old slots.new) }
    ensures facts { OnOk result (Extends facts.old facts.new) }
    ensures asks { OnOk result ((c : RawCircuit) (done : List AnyFact) → HasAsks c slots.old facts.old own.now done numbers.old rest.old → HasAsks c slots.new facts.new own.now (done ++ fact ∷ []) numbers.new rest.new) }
    ensures small { OnOk result (All (λ number. number < 64) numbers.old → All (λ number. number < 64) numbers.new) }
{
    match shared_number(own, slots, facts, fact)? {
        Some(number) => numbers.push(number),
        None => rest.push(fact),
    }
}

/// What a row asks.
fn asks_of(
    alloc: Global,
    slots: &mut Items<Giver>,
    facts: &mut Items<Fact>,
    row: &Row,
) -> Result<Asks, AllocError>
    requires { AreOrdered slots.old }
    ensures slots { OnOk result (AreMore slots.old slots.new) }
    ensures facts { OnOk result (Extends facts.old facts.new) }
    ensures asks { IfOk result (λ asks. (c : RawCircuit) → IsAsks c slots.new facts.new row.now asks) }
{
    let own = row.slots.as_slice();
    let asked = row.facts.as_slice();
    let mut numbers = room_for(alloc, asked.len())?;
    let mut rest = Items::new(alloc);
    for fact in asked {
        add_ask(own, slots, facts, &mut numbers, &mut rest, *fact)?;
    }
    let mask = mask_of(numbers.as_slice());
    Ok(Asks {
        mask,
        needs: needs_of(own, asked),
        numbers,
        rest,
    })
}

/// Numbers what a row asks of presence.
fn number_presence(
    slots: &mut Items<Giver>,
    facts: &mut Items<Fact>,
    row: &Row,
) -> Result<(), AllocError>
    requires { AreOrdered slots.old }
    ensures { OnOk result (AreOrdered slots.new) }
{
    let own = row.slots.as_slice();
    let asked = row.facts.as_slice();
    for fact in asked {
        if is_presence(own, fact) {
            let _number = shared_number(own, slots, facts, *fact)?;
        }
    }
    Ok(())
}

/// Numbers what the rows ask of presence, before all else: so while there is room for it no guard is asked before it.
fn presence_of_all(
    slots: &mut Items<Giver>,
    facts: &mut Items<Fact>,
    rows: &[Row],
) -> Result<(), AllocError>
    requires { AreOrdered slots.old }
    ensures { OnOk result (AreOrdered slots.new) }
{
    for row in rows {
        number_presence(slots, facts, row)?;
    }
    Ok(())
}

/// What the rows of a region ask.
fn shared_by(alloc: Global, rows: &[Row]) -> Result<Shared, AllocError>
    ensures { IfOk result (λ shared. (c : RawCircuit) → IsShared c rows.now shared) }
{
    let mut slots = Items::new(alloc);
    let mut facts = Items::new(alloc);
    presence_of_all(&mut slots, &mut facts, rows)?;
    let mut asks = Items::new(alloc);
    for row in rows {
        let own = asks_of(alloc, &mut slots, &mut facts, row)?;
        asks.push(own)?;
    }
    let columns = columns_of(alloc, asks.as_slice())?;
    Ok(Shared {
        slots,
        facts,
        asks,
        columns,
    })
}

/// What the rows of all regions ask.
pub(crate) fn shared_in(alloc: Global, plans: &[Items<Row>]) -> Result<Items<Shared>, AllocError>
    ensures { IfOk result (λ shared. (c : RawCircuit) → AreShared c plans.now shared) }
{
    let mut all = Items::new(alloc);
    for rows in plans {
        let shared = shared_by(alloc, rows.as_slice())?;
        all.push(shared)?;
    }
    Ok(all)
}
