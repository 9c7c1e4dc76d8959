//! The root, which gives away the seats.
ghost use Rattle.std.specs.Prelude.{◌≡◌, ◌<◌, ℕ};
ghost use Rattle.reo_coupling.specs.declared.view.Mark.TheVariants.{Fresh};
ghost use Rattle.reo_coupling.specs.Seats.{mark_at, after_split, fresh_region, party_mark_at, after_party_split};
ghost use Rattle.reo_coupling.specs.PortViews.{fresh_party};

use crate::party_seat::PartySeat;
use crate::region_seat::RegionSeat;
use crate::rule::{Give, GiveParty, Place};
use crate::words::Words;
use atomic_table::Seat;
use reo_coupling::View;
use std::marker::{Brand, Model};

/// The owner of all seats that are not given away.
#[derive(Drop)]
pub struct Root {
    pub(crate) seat: Seat<(), View>,
    pub(crate) limit: u64,
}

impl Model for Root {
    ghost use Rattle.reo_table.specs.Seat.{IsRootSeat};
    ghost use Rattle.reo_table.specs.Shared.{RootState};
    ghost use Rattle.reo_table.specs.Plays.{root_of};

    ghost Value = { RootState };

    ghost view = { λ r. record { id = r.seat.table_id; view = root_of r.seat.me.0 } };

    ghost invariant = { λ r. IsRootSeat r.seat.me r.limit };
}

impl Root {
    /// The seat of a region, which knows nothing yet. Each region has one seat.
    pub fn region_seat(&mut self, words: &Words, region: u32) -> RegionSeat
        requires own { self.old.id ≡ words.now.id }
        requires region { region < words.now.setting.fabric.regions }
        requires fresh { mark_at self.old.view region ≡ Fresh }
        ensures root { self.new ≡ record self.old { view = after_split self.old.view region } }
        ensures seat { result ≡ record { id = self.old.id; view = fresh_region self.old.view.limit region } }
    {
        self.seat_of::<Brand>(words, region)
    }

    /// The seat of a party, which made no offer yet. Each party has one seat.
    pub fn party_seat(&mut self, words: &Words, party: u32) -> PartySeat
        requires own { self.old.id ≡ words.now.id }
        requires party { party < words.now.setting.fabric.parties }
        requires fresh { party_mark_at self.old.view party ≡ Fresh }
        ensures root { self.new ≡ record self.old { view = after_party_split self.old.view party } }
        ensures seat { result ≡ record { id = self.old.id; view = fresh_party party } }
    {
        self.party_seat_of::<Brand>(words, party)
    }

    fn party_seat_of<P: Place>(&mut self, words: &Words, party: u32) -> PartySeat
        requires place { P.place ≡ party }
        requires own { self.old.id ≡ words.now.id }
        requires party { party < words.now.setting.fabric.parties }
        requires fresh { party_mark_at self.old.view party ≡ Fresh }
        ensures root { self.new ≡ record self.old { view = after_party_split self.old.view party } }
        ensures seat { result ≡ record { id = self.old.id; view = fresh_party party } }
    {
        let seat = words
            .table
            .shared
            .split_seat::<GiveParty<P>>(&mut self.seat);
        PartySeat { seat }
    }

    fn seat_of<P: Place>(&mut self, words: &Words, region: u32) -> RegionSeat
        requires place { P.place ≡ region }
        requires own { self.old.id ≡ words.now.id }
        requires region { region < words.now.setting.fabric.regions }
        requires fresh { mark_at self.old.view region ≡ Fresh }
        ensures root { self.new ≡ record self.old { view = after_split self.old.view region } }
        ensures seat { result ≡ record { id = self.old.id; view = fresh_region self.old.view.limit region } }
    {
        let seat = words.table.shared.split_seat::<Give<P>>(&mut self.seat);
        RegionSeat {
            seat,
            region,
            round: 0,
            limit: self.limit,
            last: 0,
        }
    }
}
