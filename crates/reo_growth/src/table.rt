//! The table of a web: its connected firings.
ghost use Rattle.std.specs.Prelude.{◌≡◌, ℕ, ◌<◌, ◌^◌, List, [], length, map, slice_index_or, replicate, IfOk, IfErr, OnOk};
ghost use Rattle.std.specs.List.Sorted.{IsPermutation, IsSorted};
ghost use Rattle.reo_growth.specs.Lists.{Among};
ghost use Rattle.reo_growth.specs.Web.{AreFew, IsWeb};
ghost use Rattle.reo_growth.specs.Marks.{AreBelow, AreHolders};
ghost use Rattle.reo_growth.specs.Ground.{AreMarksOf, ArePartners, IsGround};
ghost use Rattle.reo_growth.specs.Search.{AddsHolder, AreSortedRows, IsFresh, Searched, names_in};
ghost use Rattle.reo_growth.specs.Table.{IsTableOf, Refuses};

use crate::engine::widen;
use crate::found::{Found, Row};
use crate::ground::Ground;
use crate::marks::Mark;
use crate::trail::{Marking, Trail};
use crate::web::Web;
use sqlite_items::Items;
use std::alloc::{AllocError, Global};

/// As many vertices as growth goes over.
const MOST_VERTICES: u32 = 65_536;

/// As many firings as a web may have.
const MOST_FIRINGS: u32 = 4_096;

/// How many vertices growth went over, and the rows of the connected firings in table order.
#[derive(Drop)]
pub struct Table {
    pub growth: u32,
    pub rows: Vec<Row>,
}

/// Why a web has no table.
#[derive(Clone, Copy, Debug, PartialEq, Eq)]
pub enum TableRefusal {
    /// There are more vertices than growth goes over, or more firings than a table has: so many.
    TooLarge(u32),
    NoMemory,
}

impl From<AllocError> for TableRefusal {
    ghost use Rattle.std.specs.Prelude.{◌≡◌};
    ghost use Rattle.reo_growth.specs.declared.table.TableRefusal.TheVariants.{NoMemory};

    ghost from_gives = { λ _ refusal. refusal ≡ NoMemory };

    fn from(_: AllocError) -> Self {
        TableRefusal::NoMemory
    }
}

/// Adds an automaton to the holders of its names.
fn add_holder(table: &mut Vec<Items<u32>>, x: u32, names: &[u32]) -> Result<(), AllocError>
    requires { AreBelow (length table.old.items) names.now }
    ensures { OnOk result (AddsHolder x names.now table.old.items table.new.items) }
{
    for name in names {
        table[*name as usize].push(x)?;
    }
    Ok(())
}

/// As many empty lists.
fn empty_lists(alloc: Global, count: u32) -> Result<Vec<Items<u32>>, AllocError>
    ensures long { IfOk result (λ table. length table.items ≡ count) }
    ensures empty { IfOk result (λ table. (k : ℕ) (d : List ℕ) → k < length table.items → slice_index_or table.items k d ≡ []) }
{
    let mut table = Vec::with_capacity(alloc, count as usize)?;
    for _ in 0..count {
        table.push(Items::new(alloc))?;
    }
    Ok(table)
}

/// For each name the automata that have it.
fn holders_of(alloc: Global, web: &Web) -> Result<Items<Items<u32>>, AllocError>
    requires web { IsWeb web.now }
    requires few { AreFew web.now }
    ensures { IfOk result (AreHolders web.now) }
{
    let mut table = empty_lists(alloc, web.names)?;
    for (x, automaton) in web.automata.as_slice().iter().enumerate() {
        add_holder(&mut table, x as u32, automaton.names.as_slice())?;
    }
    Ok(Items::from_vec(table))
}

/// For each name the other ends of the FIFO1s that end with it; no table where there is no FIFO1.
fn partners_of(alloc: Global, web: &Web) -> Result<Items<Items<u32>>, AllocError>
    requires web { IsWeb web.now }
    ensures { IfOk result (ArePartners web.now) }
{
    if web.cells.is_empty() {
        return Ok(Items::new(alloc));
    }
    let mut table = empty_lists(alloc, web.names)?;
    for (a, b) in web.cells.as_slice() {
        add_holder(&mut table, *b, &[*a])?;
        add_holder(&mut table, *a, &[*b])?;
    }
    Ok(Items::from_vec(table))
}

/// As many marks, with room for a change of each, and one change more.
fn trail_of(alloc: Global, mark: Mark, count: usize) -> Result<Trail, AllocError>
    requires { count < 2 ^ 32 }
    ensures { IfOk result (λ trail. trail.marks.items ≡ replicate count mark) }
{
    let marks = vec![in alloc; mark; count]?;
    let log = Vec::with_capacity(alloc, 2 * count)?;
    Ok(Trail { marks, log })
}

/// The marks of the list with no automaton.
fn no_marks(alloc: Global, web: &Web) -> Result<Marking, AllocError>
    requires few { AreFew web.now }
    ensures { IfOk result (AreMarksOf web.now []) }
{
    let automata = trail_of(alloc, Mark::Absent, web.automata.len())?;
    let names = trail_of(alloc, Mark::Unknown, web.names as usize)?;
    Ok(Marking { automata, names })
}

/// Goes over all vertices, root by root; none where they are too many.
fn grow_all(
    ground: &Ground,
    marking: &mut Marking,
    mut found: Found,
) -> Result<Option<Found>, AllocError>
    requires ground { IsGround ground.now }
    requires marks { AreMarksOf ground.now.web [] marking.old }
    requires fresh { IsFresh found }
    ensures { IfOk result (Searched ground.now.web) }
{
    let count = ground.web.automata.len();
    for root in 0..count {
        if !widen(ground, root, root, count, marking, &mut found)? {
            return Ok(None);
        }
    }
    Ok(Some(found))
}

/// Goes over all vertices of a web made ready; none where they are too many.
fn search(alloc: Global, ground: &Ground) -> Result<Option<Found>, AllocError>
    requires ground { IsGround ground.now }
    requires few { AreFew ground.now.web }
    ensures { IfOk result (Searched ground.now.web) }
{
    let mut marking = no_marks(alloc, &ground.web)?;
    let found = Found {
        alloc,
        room: MOST_VERTICES,
        count: 0,
        rows: Vec::new(alloc),
    };
    grow_all(ground, &mut marking, found)
}

/// The rows, the least first, each once.
fn sorted(mut rows: Vec<Row>) -> Result<Vec<Row>, AllocError>
    ensures { IfOk result (λ kept. AreSortedRows rows.items (map names_in kept.items)) }
{
    rows.sort()?;
    rows.dedup();
    Ok(rows)
}

/// The table of a web, where neither its vertices nor its firings are too many. A vertex costs the marks of the names of
/// the automaton that enters, of the automata that its link opens, and of those before the next that is open.
pub fn table_of(alloc: Global, web: Web) -> Result<Table, TableRefusal>
    requires web { IsWeb web }
    requires few { AreFew web }
    ensures table { IfOk result (λ table. IsTableOf web table.growth (map names_in table.rows.items)) }
    ensures refused { IfErr result (Refuses web) }
{
    let holders = holders_of(alloc, &web)?;
    let partners = partners_of(alloc, &web)?;
    let ground = Ground {
        web,
        holders,
        partners,
    };
    let Some(found) = search(alloc, &ground)? else {
        return Err(TableRefusal::TooLarge(MOST_VERTICES + 1));
    };
    if found.count > MOST_FIRINGS {
        return Err(TableRefusal::TooLarge(found.count));
    }
    let growth = MOST_VERTICES - found.room;
    let rows = sorted(found.rows)?;
    Ok(Table { growth, rows })
}
