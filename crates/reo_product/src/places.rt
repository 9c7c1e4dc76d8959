//! Names by their places among the names of a region.
ghost use Rattle.std.specs.Prelude.{◌≡◌, ◌≢◌, ℕ, ◌<◌, ◌^◌, length, map, reverse, All, MatchOption, IfOk};
ghost use Rattle.std.specs.List.Sorted.{IsStrictlyIncreasing};
ghost use Rattle.reo_product.specs.RegionWeb.{name_at};
ghost use Rattle.reo_product.specs.Places.{AreEachPlacesOf, AreKnown, ArePlacesOf, IsPlacedTemplate};

use reo_automata::{Link, Template};
use reo_growth::Automaton;
use sqlite_items::Items;
use std::alloc::{AllocError, Global};

/// The place of a name.
pub fn place_of(names: &[u32], name: u32) -> Option<u32>
    requires rising { IsStrictlyIncreasing names.now }
    requires few { length names.now < 2 ^ 32 }
    ensures { MatchOption result ((place : ℕ) → place < length names.now → name_at names.now place ≢ name) (λ place. (place < length names.now) × (name_at names.now place ≡ name)) }
{
    match names.binary_search(&name) {
        Ok(place) => Some(place as u32),
        Err(_) => None,
    }
}

/// The place of a name that has one.
fn known_place(names: &[u32], name: u32) -> u32
    requires rising { IsStrictlyIncreasing names.now }
    requires few { length names.now < 2 ^ 32 }
    requires known { (place : ℕ) × (place < length names.now) × (name_at names.now place ≡ name) }
    ensures { (result < length names.now) × (name_at names.now result ≡ name) }
{
    match place_of(names, name) {
        Some(place) => place,
        None => unreachable!(),
    }
}

/// The places of names, written over them.
fn places_of(names: &[u32], mut list: Items<u32>) -> Items<u32>
    requires rising { IsStrictlyIncreasing names.now }
    requires few { length names.now < 2 ^ 32 }
    requires known { AreKnown names.now list }
    ensures { ArePlacesOf names.now list result }
{
    for index in 0..list.len() {
        let place = known_place(names, list.as_slice()[index]);
        list.set(index, place);
    }
    list
}

/// The places of the names that each link fires, the last link's first.
fn places_of_links(
    alloc: Global,
    names: &[u32],
    mut links: Items<Link>,
) -> Result<Vec<Items<u32>>, AllocError>
    requires rising { IsStrictlyIncreasing names.now }
    requires few { length names.now < 2 ^ 32 }
    requires known { All (λ link. AreKnown names.now link.fires) links }
    ensures { IfOk result (λ placed. AreEachPlacesOf names.now (map (λ link. link.fires) links) (reverse placed.items)) }
{
    let mut placed = Vec::with_capacity(alloc, links.len())?;
    while let Some(link) = links.pop() {
        placed.push(places_of(names, link.fires))?;
    }
    Ok(placed)
}

/// A template as an automaton of a web, which takes over the lists of the template.
pub fn place_template(
    alloc: Global,
    names: &[u32],
    template: Template,
) -> Result<Automaton, AllocError>
    requires rising { IsStrictlyIncreasing names.now }
    requires few { length names.now < 2 ^ 32 }
    requires known { AreKnown names.now template.names }
    requires links_known { All (λ link. AreKnown names.now link.fires) template.links }
    ensures { IfOk result (IsPlacedTemplate names.now template) }
{
    let placed = places_of(names, template.names);
    let mut links = places_of_links(alloc, names, template.links)?;
    links.reverse();
    Ok(Automaton {
        names: placed,
        links: Items::from_vec(links),
    })
}
