//! The automata of all regions, listed in one pass.
ghost use Rattle.std.specs.Prelude.{◌≡◌, ℕ, ◌<◌, ◌^◌, [], length, slice_index_or, IfOk, OnOk};
ghost use Rattle.reo_cut.specs.Cut.{IsCut};
ghost use Rattle.reo_product.specs.Region.{AddsMember, AreMembers};

use reo_cut::Cut;
use reo_net::Net;
use sqlite_items::Items;
use std::alloc::{AllocError, Global};
use std::marker::Model;

/// For each region the numbers of its automata, which rise.
#[derive(Drop)]
pub struct Members {
    lists: Items<Items<u32>>,
}

impl Model for Members {
    ghost use Rattle.std.specs.Prelude.{ℕ, List};

    ghost Value = { List (List ℕ) };

    ghost view = { λ m. m.lists };
}

impl Members {
    /// The numbers of a region's automata; none where there is no such region.
    pub fn of(&self, region: u32) -> &[u32]
        ensures { result.now ≡ slice_index_or self.now region [] }
    {
        match self.lists.get(region as usize) {
            Some(list) => list.as_slice(),
            None => &[],
        }
    }
}

/// As many empty lists.
fn empty_lists(alloc: Global, count: u32) -> Result<Vec<Items<u32>>, AllocError>
    ensures { IfOk result (λ lists. AreMembers [] count lists.items) }
{
    let mut lists = Vec::with_capacity(alloc, count as usize)?;
    for _ in 0..count {
        lists.push(Items::new(alloc))?;
    }
    Ok(lists)
}

/// Lists an automaton for its region.
fn add_member(
    lists: &mut Vec<Items<u32>>,
    entry: Option<u32>,
    number: u32,
) -> Result<(), AllocError>
    ensures { OnOk result (AddsMember entry number lists.old.items lists.new.items) }
{
    let Some(region) = entry else {
        return Ok(());
    };
    let region = region as usize;
    if region < lists.len() {
        lists[region].push(number)?;
    }
    Ok(())
}

/// The numbers of the automata of the first regions, by what region each automaton is of.
fn lists_of(
    alloc: Global,
    region_of: &[Option<u32>],
    regions: u32,
) -> Result<Vec<Items<u32>>, AllocError>
    requires { length region_of.now < 2 ^ 32 }
    ensures { IfOk result (λ lists. AreMembers region_of.now regions lists.items) }
{
    let mut lists = empty_lists(alloc, regions)?;
    for (number, entry) in region_of.iter().enumerate() {
        add_member(&mut lists, *entry, number as u32)?;
    }
    Ok(lists)
}

/// The automata of all regions of a circuit that is cut so.
pub fn members_of(alloc: Global, net: &Net, cut: &Cut) -> Result<Members, AllocError>
    requires { IsCut net.now cut.now }
    ensures { IfOk result (AreMembers cut.now.region_of cut.now.regions) }
{
    let _ = net.nodes();
    let lists = lists_of(alloc, cut.region_of.as_slice(), cut.regions)?;
    Ok(Members {
        lists: Items::from_vec(lists),
    })
}
