//! The seat of a party.
ghost use Rattle.std.specs.Prelude.{◌≡◌, ◌≢◌, None};
ghost use Rattle.reo_value.specs.declared.op.Way.TheVariants.{Put};
ghost use Rattle.reo_coupling.specs.PortViews.{port_of, after_set_put, after_offer, after_clear};
ghost use Rattle.reo_coupling.specs.PartySteps.{IsOwnedPut, IsReady};
ghost use Rattle.reo_coupling.specs.PortParts.{IsOwned};
ghost use Rattle.reo_table.specs.History.{SaysHowItStands};
ghost use Rattle.reo_table.specs.Shared.{party_knowing, after_state_look, GotLook};

use crate::rule::{Clear, Given, Offer, Place, SeeGot, SeeState, SetPut, Told};
use crate::words::Words;
use atomic_table::Seat;
use reo_coupling::View;
use reo_value::{Value, word_of};
use std::marker::{Brand, Model};

/// What a party steps on the shared words with. Each of its calls is one atomic step.
#[derive(Drop)]
pub struct PartySeat {
    pub(crate) seat: Seat<(), View>,
}

impl Model for PartySeat {
    ghost use Rattle.reo_table.specs.Shared.{PartyState};
    ghost use Rattle.reo_table.specs.Plays.{party_of};
    ghost use Rattle.reo_table.specs.Seat.{IsPartySeat};

    ghost Value = { PartyState };

    ghost view = { λ s. record { id = s.seat.table_id; view = party_of s.seat.me.0 } };

    ghost invariant = { λ s. IsPartySeat s.seat.me };
}

impl PartySeat {
    /// Stores the value of the next put at an idle port.
    pub fn set_put(&mut self, words: &Words, port: u32, value: Value)
        requires own { self.old.id ≡ words.now.id }
        requires port { IsOwnedPut words.now.setting.fabric self.old.view.party port }
        requires idle { (port_of self.old.view port).call ≡ None }
        ensures { self.new ≡ party_knowing self.old (after_set_put self.old.view port value) }
    {
        self.set_put_at::<Brand, Brand>(words, port, value);
    }

    /// Opens a call at an idle port, at a put with the value that was stored for it.
    pub fn offer(&mut self, words: &Words, port: u32)
        requires own { self.old.id ≡ words.now.id }
        requires port { IsReady words.now.setting.fabric self.old.view port }
        requires idle { (port_of self.old.view port).call ≡ None }
        ensures { self.new ≡ party_knowing self.old (after_offer self.old.view port) }
    {
        self.offer_at::<Brand>(words, port);
    }

    /// Reads the state word of a port: 0 where no call stands, 1 where the call is not answered, else 3 and the number of the
    /// answer.
    pub fn see_state(&mut self, words: &Words, port: u32) -> u64
        requires own { self.old.id ≡ words.now.id }
        requires port { IsOwned words.now.setting.fabric self.old.view.party port }
        ensures view { self.new ≡ after_state_look words.now self.old port result }
        ensures says { SaysHowItStands self.old.view port result }
    {
        self.see_state_at::<Brand>(words, port)
    }

    /// Reads the data word of a port whose call was read to be answered: it is the code of the answer's datum.
    pub fn see_got(&mut self, words: &Words, port: u32) -> u64
        requires own { self.old.id ≡ words.now.id }
        requires port { IsOwned words.now.setting.fabric self.old.view.party port }
        requires seen { (port_of self.old.view port).seen ≢ None }
        ensures { GotLook words.now self.old self.new port result }
    {
        self.see_got_at::<Brand, Brand>(words, port)
    }

    /// Collects a call whose number and datum were read: the port is idle again.
    pub fn clear(&mut self, words: &Words, port: u32)
        requires own { self.old.id ≡ words.now.id }
        requires port { IsOwned words.now.setting.fabric self.old.view.party port }
        requires seen { (port_of self.old.view port).seen ≢ None }
        requires datum { (port_of self.old.view port).datum ≢ None }
        ensures { self.new ≡ party_knowing self.old (after_clear self.old.view port) }
    {
        self.clear_at::<Brand>(words, port);
    }

    fn set_put_at<P: Place, D: Given>(&mut self, words: &Words, port: u32, value: Value)
        requires place { P.place ≡ port }
        requires given { D.value ≡ value }
        requires own { self.old.id ≡ words.now.id }
        requires port { IsOwnedPut words.now.setting.fabric self.old.view.party port }
        requires idle { (port_of self.old.view port).call ≡ None }
        ensures { self.new ≡ party_knowing self.old (after_set_put self.old.view port value) }
    {
        let place = words.data_index(port);
        let word = word_of(value);
        words
            .table
            .shared
            .store::<SetPut<P, D>>(&mut self.seat, place, word);
    }

    fn offer_at<P: Place>(&mut self, words: &Words, port: u32)
        requires place { P.place ≡ port }
        requires own { self.old.id ≡ words.now.id }
        requires port { IsReady words.now.setting.fabric self.old.view port }
        requires idle { (port_of self.old.view port).call ≡ None }
        ensures { self.new ≡ party_knowing self.old (after_offer self.old.view port) }
    {
        let place = words.state_index(port);
        words
            .table
            .shared
            .store::<Offer<P>>(&mut self.seat, place, 1);
    }

    fn see_state_at<P: Place>(&mut self, words: &Words, port: u32) -> u64
        requires place { P.place ≡ port }
        requires own { self.old.id ≡ words.now.id }
        requires port { IsOwned words.now.setting.fabric self.old.view.party port }
        ensures view { self.new ≡ after_state_look words.now self.old port result }
        ensures says { SaysHowItStands self.old.view port result }
    {
        let place = words.state_index(port);
        let word = words
            .table
            .shared
            .load::<SeeState<P>>(&mut self.seat, place);
        word
    }

    fn see_got_at<T: Told, P: Place>(&mut self, words: &Words, port: u32) -> u64
        requires setting { T.setting ≡ words.now.setting }
        requires place { P.place ≡ port }
        requires own { self.old.id ≡ words.now.id }
        requires port { IsOwned words.now.setting.fabric self.old.view.party port }
        requires seen { (port_of self.old.view port).seen ≢ None }
        ensures { GotLook words.now self.old self.new port result }
    {
        let place = words.data_index(port);
        let word = words
            .table
            .shared
            .load::<SeeGot<T, P>>(&mut self.seat, place);
        word
    }

    fn clear_at<P: Place>(&mut self, words: &Words, port: u32)
        requires place { P.place ≡ port }
        requires own { self.old.id ≡ words.now.id }
        requires port { IsOwned words.now.setting.fabric self.old.view.party port }
        requires seen { (port_of self.old.view port).seen ≢ None }
        requires datum { (port_of self.old.view port).datum ≢ None }
        ensures { self.new ≡ party_knowing self.old (after_clear self.old.view port) }
    {
        let place = words.state_index(port);
        words
            .table
            .shared
            .store::<Clear<P>>(&mut self.seat, place, 0);
    }
}
