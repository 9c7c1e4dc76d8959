//! One label for all automata that hang together.
ghost use Rattle.std.specs.Prelude.{◌≡◌, ℕ, ◌+◌, ◌<◌, ◌^◌, List, [], ◌∷◌, map, length, All, IfOk, OnOk};
ghost use Rattle.std.specs.List.{range_with_len};
ghost use Rattle.reo_net.specs.Checks.{IsChecked};
ghost use Rattle.reo_cut.specs.Labels.{AreLabels, label_at, pairs_below};
ghost use Rattle.reo_cut.specs.Parents.{DoNotRise, LeadTo, AreParents, IsOnTheWay};

use reo_net::{Channel, Net};
use std::alloc::{AllocError, Global};

/// The least number of this one's region: the one at which the parents end. The way there is halved.
fn root(parents: &mut [u32], number: u32) -> u32
    requires within { number < length parents.old }
    requires falls { DoNotRise parents.old }
    ensures way { IsOnTheWay number parents.old parents.new result }
    ensures end { label_at parents.new result ≡ result }
{
    let mut place = number;
    while parents[place as usize] < place {
        let next = parents[parents[place as usize] as usize];
        parents[place as usize] = next;
        place = next;
    }
    place
}

/// Joins the regions of two automata: the greater root leads to the lesser.
fn join(parents: &mut [u32], one: u32, other: u32)
    requires one { one < length parents.old }
    requires other { other < length parents.old }
    requires falls { DoNotRise parents.old }
    ensures len { length parents.new ≡ length parents.old }
    ensures falls { DoNotRise parents.new }
    ensures one_pair_more { (pairs : List (ℕ × ℕ)) (n : ℕ) → AreParents pairs n parents.old → AreParents ((one, other) ∷ pairs) n parents.new }
{
    let first = root(parents, one);
    let second = root(parents, other);
    if first < second {
        parents[second as usize] = first;
    } else {
        parents[first as usize] = second;
    }
}

/// Puts for each number the least of its region, where its parent stood.
fn settle(parents: &mut [u32])
    requires fit { length parents.old < 2 ^ 32 }
    requires falls { DoNotRise parents.old }
    ensures { (labels : List ℕ) → LeadTo labels parents.old → parents.new ≡ labels }
{
    for number in 0..parents.len() {
        let parent = parents[number];
        parents[number] = parents[parent as usize];
    }
}

/// Joins each channel that is no FIFO1 with the nodes at its ends, and puts the labels where the parents stood.
fn join_channels(parents: &mut [u32], channels: &[Channel])
    requires few { length channels.now < 2 ^ 31 }
    requires ends_a { All (λ channel. length channels.now + channel.a < length parents.old) channels.now }
    requires ends_b { All (λ channel. length channels.now + channel.b < length parents.old) channels.now }
    requires fit { length parents.old < 2 ^ 32 }
    requires falls { DoNotRise parents.old }
    ensures len { length parents.new ≡ length parents.old }
    ensures joined { (n : ℕ) → AreParents [] n parents.old → AreLabels (pairs_below channels.now (length channels.now)) n parents.new }
{
    let count = channels.len() as u32;
    for (number, channel) in channels.iter().enumerate() {
        if !channel.kind.is_fifo() {
            join(parents, number as u32, count + channel.a);
            join(parents, number as u32, count + channel.b);
        }
    }
    settle(parents);
}

/// For each automaton, by its number, the least of those that hang together with it.
pub fn labels(alloc: Global, net: &Net) -> Result<Vec<u32>, AllocError>
    ensures checked { OnOk result (IsChecked net.now) }
    ensures labels { IfOk result (λ labels. AreLabels (pairs_below net.now.channels (length net.now.channels)) (length net.now.channels + net.now.nodes) labels.items) }
{
    let channels = net.channels();
    let count = channels.len() as u32 + net.nodes();
    let mut labels = own_labels(alloc, count)?;
    join_channels(&mut labels, channels);
    Ok(labels)
}

/// Each number below the count for its own.
fn own_labels(alloc: Global, count: u32) -> Result<Vec<u32>, AllocError>
    ensures { IfOk result (λ labels. labels.items ≡ range_with_len 0 count) }
{
    let mut labels = Vec::with_capacity(alloc, count as usize)?;
    for label in 0..count {
        labels.push(label)?;
    }
    Ok(labels)
}
