//! The end of the shared words: the seats come home to the root, and one history explains what they knew.
ghost use Rattle.std.specs.Prelude.{◌≡◌, ◌≤◌, ◌+◌, length, All};
ghost use Rattle.std.specs.Mem.Slots.{slots_items, slots_len, IsFull};
ghost use Rattle.reo_coupling.specs.declared.view.View.TheVariants.{Root as AnyRoot};
ghost use Rattle.reo_coupling.specs.Seats.{after_join, after_party_join};
ghost use Rattle.reo_coupling.specs.Parts.{NothingDue};
ghost use Rattle.reo_table.specs.Plays.{root_of};
ghost use Rattle.reo_table.specs.Closing.{views_of, party_views_of, after_regions, after_parties, AllAreHere, IsFinal, IsReadOut, AreRead, SaysHeld};

use crate::party_seat::PartySeat;
use crate::region_seat::RegionSeat;
use crate::root::Root;
use crate::rule::Welcome;
use crate::words::Words;
use atomic_table::{Closed, Seat};
use reo_coupling::View;
use reo_value::{Value, value_of};
use std::alloc::Global;

/// What closed words tell.
#[derive(Drop)]
pub struct Final {
    /// How many entries the history has.
    pub count: u64,
    /// What the history leaves in each cell.
    pub cells: Vec<Option<Value>>,
}

impl Words {
    /// Takes all seats home and closes the words. A region whose seat was given away has to be among these, and none may have a
    /// store to a cell due. It takes no memory.
    pub fn close(self, root: Root, regions: Vec<RegionSeat>, parties: Vec<PartySeat>) -> Final
        requires own { root.id ≡ self.id }
        requires regions { All (λ seat. seat.id ≡ self.id) regions.items }
        requires parties { All (λ seat. seat.id ≡ self.id) parties.items }
        requires here { AllAreHere self root.view (views_of regions.items) }
        requires quiet { All (λ seat. NothingDue seat.view.cells) regions.items }
        ensures { IsFinal self root.view (views_of regions.items) (party_views_of parties.items) result.count result.cells.items }
    {
        let mut seat = root.seat;
        self.take_regions(&mut seat, regions);
        self.take_parties(&mut seat, parties);
        self.read_out(seat)
    }
}

impl Words {
    /// Takes the seats of regions home, the last first.
    fn take_regions(&self, seat: &mut Seat<(), View>, mut regions: Vec<RegionSeat>)
        requires own { seat.old.table_id ≡ self.now.id }
        requires root { seat.old.me.0 ≡ AnyRoot (root_of seat.old.me.0) }
        requires regions { All (λ seat. seat.id ≡ self.now.id) regions.items }
        ensures own { seat.new.table_id ≡ seat.old.table_id }
        ensures view { seat.new.me.0 ≡ AnyRoot (after_regions (root_of seat.old.me.0) (views_of regions.items)) }
    {
        while let Some(region) = regions.pop() {
            self.take_region(seat, region);
        }
    }

    /// Takes the seats of parties home, the last first.
    fn take_parties(&self, seat: &mut Seat<(), View>, mut parties: Vec<PartySeat>)
        requires own { seat.old.table_id ≡ self.now.id }
        requires root { seat.old.me.0 ≡ AnyRoot (root_of seat.old.me.0) }
        requires parties { All (λ seat. seat.id ≡ self.now.id) parties.items }
        ensures own { seat.new.table_id ≡ seat.old.table_id }
        ensures view { seat.new.me.0 ≡ AnyRoot (after_parties (root_of seat.old.me.0) (party_views_of parties.items)) }
    {
        while let Some(party) = parties.pop() {
            self.take_party(seat, party);
        }
    }

    fn take_region(&self, seat: &mut Seat<(), View>, region: RegionSeat)
        requires own { seat.old.table_id ≡ self.now.id }
        requires root { seat.old.me.0 ≡ AnyRoot (root_of seat.old.me.0) }
        requires same { region.id ≡ self.now.id }
        ensures own { seat.new.table_id ≡ seat.old.table_id }
        ensures view { seat.new.me.0 ≡ AnyRoot (after_join (root_of seat.old.me.0) region.view) }
    {
        self.table.shared.join_seat::<Welcome>(seat, region.seat);
    }

    fn take_party(&self, seat: &mut Seat<(), View>, party: PartySeat)
        requires own { seat.old.table_id ≡ self.now.id }
        requires root { seat.old.me.0 ≡ AnyRoot (root_of seat.old.me.0) }
        requires same { party.id ≡ self.now.id }
        ensures own { seat.new.table_id ≡ seat.old.table_id }
        ensures view { seat.new.me.0 ≡ AnyRoot (after_party_join (root_of seat.old.me.0) party.view) }
    {
        self.table.shared.join_seat::<Welcome>(seat, party.seat);
    }

    /// Closes the words with the root's seat, and reads what they say at last.
    fn read_out(self, seat: Seat<(), View>) -> Final
        requires own { seat.table_id ≡ self.id }
        requires root { seat.me.0 ≡ AnyRoot (root_of seat.me.0) }
        ensures { IsReadOut self.setting (root_of seat.me.0) result.count result.cells.items }
    {
        let first = self.cell_index(0);
        let Words {
            table,
            mut room,
            ..
        } = self;
        let closed = table.close_with(seat);
        read_cells(&closed, first, &mut room);
        let count = closed.word(0);
        closed.free();
        Final { count, cells: room }
    }
}

/// Reads the words from `first` on, each what is in a cell.
fn read_cells(closed: &Closed<(), Global>, first: usize, room: &mut Vec<Option<Value>>)
    requires full { IsFull closed.now.words }
    requires within { first + length room.old.items ≤ slots_len closed.now.words }
    ensures same { length room.new.items ≡ length room.old.items }
    ensures each { AreRead (slots_items closed.now.words) first room.new.items }
{
    let mut place = first;
    for cell in room.iter_mut() {
        *cell = held_by(closed.word(place));
        place += 1;
    }
}

/// What is in the cell whose word this is.
fn held_by(word: u64) -> Option<Value>
    ensures { SaysHeld word result }
{
    value_of(word)
}
