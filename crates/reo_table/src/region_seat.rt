//! The seat of a region.
ghost use Rattle.std.specs.Prelude.{◌≡◌, ◌≢◌, ◌<◌, ◌+◌, ◌%◌, ◌^◌, ℕ, length, Some, None};
ghost use Rattle.reo_fabric.specs.declared.entry.Entry.{Entry as AnyEntry};
ghost use Rattle.reo_coupling.specs.declared.view.Stage.TheVariants.{Between};
ghost use Rattle.reo_coupling.specs.Views.{round_after};
ghost use Rattle.reo_coupling.specs.RegionViews.{region_after_begin, region_after_clock, region_after_commit};
ghost use Rattle.reo_coupling.specs.RegionViews.{region_after_set_cell, region_after_set_got, region_after_answer};
ghost use Rattle.reo_coupling.specs.PortParts.{IsPortOf, OwesNothing};
ghost use Rattle.reo_fabric.specs.Entry.{at_place};
ghost use Rattle.reo_fabric.specs.Fabric.{IsPort};
ghost use Rattle.reo_value.specs.declared.op.Way.TheVariants.{Put};
ghost use Rattle.reo_coupling.specs.Steps.{IsOwnCell, MayCommit, IsDue};
ghost use Rattle.reo_table.specs.History.{HasHistory, IsNumbered, SaysWhatIsHeld};
ghost use Rattle.reo_table.specs.Shared.{knowing, after_look, after_port_look, after_offer_look};
ghost use Rattle.reo_table.specs.Seat.{word_of_clock, IsTold, stage_told};

use crate::clock::Clock;
use crate::rule::{
    Begin, Commit, Place, ReadClock, Said, See, SeeOffer, SeePort, Store, StoreAnswer, StoreGot,
    Told,
};
use crate::words::Words;
use atomic_table::Seat;
use reo_coupling::View;
use reo_fabric::EntryRef;
use reo_value::{Value, word_of};
use std::marker::{Brand, Model};

/// What a region steps on the shared words with. Each of its calls is one atomic step.
#[derive(Drop)]
pub struct RegionSeat {
    pub(crate) seat: Seat<(), View>,
    pub(crate) region: u32,
    pub(crate) round: u64,
    pub(crate) limit: u64,
    /// The number of its last commit.
    pub(crate) last: u64,
}

impl Model for RegionSeat {
    ghost use Rattle.reo_table.specs.Shared.{SeatState};
    ghost use Rattle.reo_table.specs.Plays.{region_of};
    ghost use Rattle.reo_table.specs.Seat.{IsRegionSeat};

    ghost Value = { SeatState };

    ghost view = { λ s. record { id = s.seat.table_id; view = region_of s.seat.me.0 } };

    ghost invariant = { λ s. IsRegionSeat s.seat.table_id.words s.seat.me s.region s.round s.limit s.last };
}

impl RegionSeat {
    /// The number of the region.
    pub fn region(&self) -> u32
        ensures { result ≡ self.now.view.cells.region }
    {
        self.region
    }

    /// Begins a round, and gives its number; the last number comes again. What was noted before is forgotten.
    pub fn begin(&mut self, words: &Words) -> u64
        requires own { self.old.id ≡ words.now.id }
        requires quiet { OwesNothing self.old.view }
        ensures round { result ≡ self.new.view.cells.round }
        ensures view { self.new ≡ knowing self.old (region_after_begin self.old.view) }
    {
        let more = rise_of(self.round);
        let place = 1 + self.region as usize;
        let found = words
            .table
            .shared
            .fetch_add::<Begin>(&mut self.seat, place, more);
        self.round = found + more;
        self.round
    }

    /// Reads the commit word, which is the length of the history. Where it is below the limit, the region is cleared to
    /// commit once.
    pub fn clock(&mut self, words: &Words) -> Clock
        requires own { self.old.id ≡ words.now.id }
        requires under_way { self.old.view.cells.stage ≢ Between }
        requires quiet { OwesNothing self.old.view }
        ensures told { IsTold self.old.view.cells.limit result }
        ensures stage { self.new.view.cells.stage ≡ stage_told result }
        ensures view { self.new ≡ knowing self.old (region_after_clock self.old.view (word_of_clock result)) }
        ensures history { HasHistory words.now.setting self.old.view (word_of_clock result) }
    {
        self.clock_told::<Brand>(words)
    }

    /// Reads the word of a cell, and notes it.
    pub fn see_cell(&mut self, words: &Words, cell: u32) -> u64
        requires own { self.old.id ≡ words.now.id }
        requires cell { IsOwnCell words.now.setting.fabric self.old.view.cells.region cell }
        requires quiet { OwesNothing self.old.view }
        ensures view { self.new ≡ after_look words.now self.old cell result }
        ensures held { SaysWhatIsHeld words.now.setting self.old.view.cells cell result }
    {
        self.see_cell_at::<Brand, Brand>(words, cell)
    }

    /// Reads the state word of a port at the region, and notes it: 1 says that the port is offered.
    pub fn see_port(&mut self, words: &Words, port: u32) -> u64
        requires own { self.old.id ≡ words.now.id }
        requires port { IsPortOf words.now.setting.fabric self.old.view.cells.region port }
        requires quiet { OwesNothing self.old.view }
        ensures { self.new ≡ after_port_look words.now self.old port result }
    {
        self.see_port_at::<Brand>(words, port)
    }

    /// Reads the data word of a put port that was noted as offered, and notes it.
    pub fn see_offer(&mut self, words: &Words, port: u32) -> u64
        requires own { self.old.id ≡ words.now.id }
        requires port { IsPort words.now.setting.fabric Put self.old.view.cells.region port }
        requires noted { at_place self.old.view.ports.states port ≡ Some 1 }
        requires quiet { OwesNothing self.old.view }
        ensures { self.new ≡ after_offer_look words.now self.old port result }
    {
        self.see_offer_at::<Brand>(words, port)
    }

    /// Commits an entry, and gives its number in the history.
    pub fn commit(&mut self, words: &Words, entry: &EntryRef<'_>) -> u64
        requires own { self.old.id ≡ words.now.id }
        requires may { MayCommit words.now.setting.fabric self.old.view entry.now }
        ensures view { self.new ≡ knowing self.old (region_after_commit self.old.view result entry.now) }
        ensures history { IsNumbered words.now.setting self.new.view.cells result entry.now }
    {
        self.commit_said::<Brand, Brand>(words, entry)
    }

    /// Stores a word that is due in a cell.
    pub fn set_cell(&mut self, words: &Words, cell: u32, word: u64)
        requires own { self.old.id ≡ words.now.id }
        requires due { IsDue self.old.view.cells cell word }
        requires cell { cell < length words.now.setting.fabric.cells }
        ensures { self.new ≡ knowing self.old (region_after_set_cell self.old.view cell word) }
    {
        self.set_cell_at::<Brand>(words, cell, word);
    }

    /// Stores the datum of a get, which is due.
    pub fn set_got(&mut self, words: &Words, port: u32, value: Value)
        requires own { self.old.id ≡ words.now.id }
        requires port { port < length words.now.setting.fabric.ports }
        requires due { at_place self.old.view.ports.gots_due port ≡ Some value }
        ensures { self.new ≡ knowing self.old (region_after_set_got self.old.view port) }
    {
        self.set_got_at::<Brand>(words, port, value);
    }

    /// Answers a port with the number of the last entry, which is due, where the datum of a get is stored.
    pub fn answer(&mut self, words: &Words, port: u32)
        requires own { self.old.id ≡ words.now.id }
        requires port { port < length words.now.setting.fabric.ports }
        requires due { at_place self.old.view.ports.answers_due port ≡ Some self.old.view.ports.last }
        requires stored { at_place self.old.view.ports.gots_due port ≡ None }
        ensures { self.new ≡ knowing self.old (region_after_answer self.old.view port) }
    {
        self.answer_at::<Brand>(words, port);
    }

    fn clock_told<T: Told>(&mut self, words: &Words) -> Clock
        requires setting { T.setting ≡ words.now.setting }
        requires own { self.old.id ≡ words.now.id }
        requires under_way { self.old.view.cells.stage ≢ Between }
        requires quiet { OwesNothing self.old.view }
        ensures told { IsTold self.old.view.cells.limit result }
        ensures stage { self.new.view.cells.stage ≡ stage_told result }
        ensures view { self.new ≡ knowing self.old (region_after_clock self.old.view (word_of_clock result)) }
        ensures history { HasHistory words.now.setting self.old.view (word_of_clock result) }
    {
        let found = words.table.shared.load::<ReadClock<T>>(&mut self.seat, 0);
        told(found, self.limit)
    }

    fn see_cell_at<T: Told, P: Place>(&mut self, words: &Words, cell: u32) -> u64
        requires setting { T.setting ≡ words.now.setting }
        requires place { P.place ≡ cell }
        requires own { self.old.id ≡ words.now.id }
        requires cell { IsOwnCell words.now.setting.fabric self.old.view.cells.region cell }
        requires quiet { OwesNothing self.old.view }
        ensures view { self.new ≡ after_look words.now self.old cell result }
        ensures held { SaysWhatIsHeld words.now.setting self.old.view.cells cell result }
    {
        let place = words.cell_index(cell);
        let word = words.table.shared.load::<See<T, P>>(&mut self.seat, place);
        word
    }

    fn see_port_at<P: Place>(&mut self, words: &Words, port: u32) -> u64
        requires place { P.place ≡ port }
        requires own { self.old.id ≡ words.now.id }
        requires port { IsPortOf words.now.setting.fabric self.old.view.cells.region port }
        requires quiet { OwesNothing self.old.view }
        ensures { self.new ≡ after_port_look words.now self.old port result }
    {
        let place = words.state_index(port);
        let word = words.table.shared.load::<SeePort<P>>(&mut self.seat, place);
        word
    }

    fn see_offer_at<P: Place>(&mut self, words: &Words, port: u32) -> u64
        requires place { P.place ≡ port }
        requires own { self.old.id ≡ words.now.id }
        requires port { IsPort words.now.setting.fabric Put self.old.view.cells.region port }
        requires noted { at_place self.old.view.ports.states port ≡ Some 1 }
        requires quiet { OwesNothing self.old.view }
        ensures { self.new ≡ after_offer_look words.now self.old port result }
    {
        let place = words.data_index(port);
        let word = words
            .table
            .shared
            .load::<SeeOffer<P>>(&mut self.seat, place);
        word
    }

    fn commit_said<T: Told, E: Said>(&mut self, words: &Words, entry: &EntryRef<'_>) -> u64
        requires setting { T.setting ≡ words.now.setting }
        requires said { E.entry ≡ entry.now }
        requires own { self.old.id ≡ words.now.id }
        requires may { MayCommit words.now.setting.fabric self.old.view entry.now }
        ensures view { self.new ≡ knowing self.old (region_after_commit self.old.view result entry.now) }
        ensures history { IsNumbered words.now.setting self.new.view.cells result entry.now }
    {
        let number = words
            .table
            .shared
            .fetch_add::<Commit<T, E>>(&mut self.seat, 0, 1);
        self.last = number;
        number
    }

    fn set_cell_at<P: Place>(&mut self, words: &Words, cell: u32, word: u64)
        requires place { P.place ≡ cell }
        requires own { self.old.id ≡ words.now.id }
        requires due { IsDue self.old.view.cells cell word }
        requires cell { cell < length words.now.setting.fabric.cells }
        ensures { self.new ≡ knowing self.old (region_after_set_cell self.old.view cell word) }
    {
        let place = words.cell_index(cell);
        words
            .table
            .shared
            .store::<Store<P>>(&mut self.seat, place, word);
    }

    fn set_got_at<P: Place>(&mut self, words: &Words, port: u32, value: Value)
        requires place { P.place ≡ port }
        requires own { self.old.id ≡ words.now.id }
        requires port { port < length words.now.setting.fabric.ports }
        requires due { at_place self.old.view.ports.gots_due port ≡ Some value }
        ensures { self.new ≡ knowing self.old (region_after_set_got self.old.view port) }
    {
        let place = words.data_index(port);
        let word = word_of(value);
        words
            .table
            .shared
            .store::<StoreGot<P>>(&mut self.seat, place, word);
    }

    fn answer_at<P: Place>(&mut self, words: &Words, port: u32)
        requires place { P.place ≡ port }
        requires own { self.old.id ≡ words.now.id }
        requires port { port < length words.now.setting.fabric.ports }
        requires due { at_place self.old.view.ports.answers_due port ≡ Some self.old.view.ports.last }
        requires stored { at_place self.old.view.ports.gots_due port ≡ None }
        ensures { self.new ≡ knowing self.old (region_after_answer self.old.view port) }
    {
        let place = words.state_index(port);
        let word = 3 + self.last;
        words
            .table
            .shared
            .store::<StoreAnswer<P>>(&mut self.seat, place, word);
    }
}

/// By how much the round word rises.
fn rise_of(round: u64) -> u64
    ensures rise { round + result ≡ round_after round }
    ensures fits { round + result < 2 ^ 64 }
{
    if round < u64::MAX { 1 } else { 0 }
}

/// What a commit word allows under a limit.
fn told(word: u64, limit: u64) -> Clock
    ensures word { word_of_clock result ≡ word }
    ensures told { IsTold limit result }
{
    if word < limit {
        Clock::Clear(word)
    } else {
        Clock::AtLimit(word)
    }
}
