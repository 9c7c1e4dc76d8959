// The rule of the shared words, and the kinds of step.
ghost use Rattle.std.specs.Prelude.{ℕ, []};
ghost use Rattle.reo_coupling.specs.declared.view.View.TheVariants.{Root, Region, Party, Spent};
ghost use Rattle.reo_coupling.specs.Seats.{IsCoupled, fresh_region, after_split, after_party_split};
ghost use Rattle.reo_coupling.specs.PortViews.{fresh_party};
ghost use Rattle.reo_value.specs.declared.value.Value.{Value as AnyValue};
ghost use Rattle.reo_value.specs.declared.value.Value.TheVariants.{Sym};
ghost use Rattle.reo_table.specs.Plays.{PutSet, OfferMade, StateSeen, GotSeen, Cleared};
ghost use Rattle.reo_coupling.specs.Opening.{first_root};
ghost use Rattle.reo_fabric.specs.declared.entry.Entry.{Entry as AnyEntry};
ghost use Rattle.reo_fabric.specs.Room.{empty_entry};
ghost use Rattle.reo_coupling.specs.Moment.{Setting};
ghost use Rattle.reo_table.specs.Plays.{setting_of, no_setting, root_of, joined};
ghost use Rattle.reo_table.specs.Plays.{Begun, Clocked, Seen, PortSeen, OfferSeen, Committed, Stored, GotStored, PortAnswered};

use atomic_table::{Join, Play, Split, TableRule};
use reo_coupling::View;
use reo_fabric::Fabric;
use std::marker::{Brand, PhantomData};
use std::snapshot::Snapshot;

/// What the rule is told when the words are made.
#[derive(Drop)]
pub struct Key {
    pub(crate) fabric: Snapshot<Fabric>,
    pub(crate) limit: u64,
}

/// Whatever the words and the views are, they are coupled.
pub struct Coupled;

impl TableRule<(), View, Key> for Coupled {
    ghost holds = { λ key state. IsCoupled (setting_of key) state.words state.views };

    ghost first = { λ key. Root (first_root (setting_of key)) };
}

/// What a step is told that is not in its words: the setting,
pub(crate) trait Told {
    ghost setting: { Setting };
}

impl Told for Brand {
    ghost setting = { no_setting };
}

/// the number of a cell, of a port or of a region,
pub(crate) trait Place {
    ghost place: { ℕ };
}

impl Place for Brand {
    ghost place = { 0 };
}

/// the value that it puts,
pub(crate) trait Given {
    ghost value: { AnyValue };
}

impl Given for Brand {
    ghost value = { Sym 0 };
}

/// the entry that it commits.
pub(crate) trait Said {
    ghost entry: { AnyEntry };
}

impl Said for Brand {
    ghost entry = { empty_entry 0 0 };
}

pub(crate) struct Begin;

impl Play<(), View> for Begin {
    ghost then = { λ step before found after. Begun before found after };
}

pub(crate) struct ReadClock<T: Told> {
    of: PhantomData<T>,
}

impl<T: Told> Play<(), View> for ReadClock<T> {
    ghost then = { λ step before found after. Clocked T.setting before found after };
}

pub(crate) struct See<T: Told, P: Place> {
    of: PhantomData<(T, P)>,
}

impl<T: Told, P: Place> Play<(), View> for See<T, P> {
    ghost then = { λ step before found after. Seen T.setting P.place step.word before found after };
}

pub(crate) struct SeePort<P: Place> {
    of: PhantomData<P>,
}

impl<P: Place> Play<(), View> for SeePort<P> {
    ghost then = { λ step before found after. PortSeen P.place step.word before found after };
}

pub(crate) struct SeeOffer<P: Place> {
    of: PhantomData<P>,
}

impl<P: Place> Play<(), View> for SeeOffer<P> {
    ghost then = { λ step before found after. OfferSeen P.place step.word before found after };
}

pub(crate) struct Commit<T: Told, E: Said> {
    of: PhantomData<(T, E)>,
}

impl<T: Told, E: Said> Play<(), View> for Commit<T, E> {
    ghost then = { λ step before found after. Committed T.setting E.entry before found after };
}

pub(crate) struct Store<P: Place> {
    of: PhantomData<P>,
}

impl<P: Place> Play<(), View> for Store<P> {
    ghost then = { λ step before word after. Stored P.place before word after };
}

pub(crate) struct StoreGot<P: Place> {
    of: PhantomData<P>,
}

impl<P: Place> Play<(), View> for StoreGot<P> {
    ghost then = { λ step before word after. GotStored P.place before word after };
}

pub(crate) struct StoreAnswer<P: Place> {
    of: PhantomData<P>,
}

impl<P: Place> Play<(), View> for StoreAnswer<P> {
    ghost then = { λ step before word after. PortAnswered P.place before word after };
}

pub(crate) struct Give<P: Place> {
    of: PhantomData<P>,
}

impl<P: Place> Split<View> for Give<P> {
    ghost left = { λ view. Root (after_split (root_of view) P.place) };

    ghost right = { λ view. Region (fresh_region (root_of view).limit P.place) };
}

pub(crate) struct GiveParty<P: Place> {
    of: PhantomData<P>,
}

impl<P: Place> Split<View> for GiveParty<P> {
    ghost left = { λ view. Root (after_party_split (root_of view) P.place) };

    ghost right = { λ view. Party (fresh_party P.place) };
}

pub(crate) struct SetPut<P: Place, D: Given> {
    of: PhantomData<(P, D)>,
}

impl<P: Place, D: Given> Play<(), View> for SetPut<P, D> {
    ghost then = { λ step before word after. PutSet P.place D.value before word after };
}

pub(crate) struct Offer<P: Place> {
    of: PhantomData<P>,
}

impl<P: Place> Play<(), View> for Offer<P> {
    ghost then = { λ step before word after. OfferMade P.place before word after };
}

pub(crate) struct SeeState<P: Place> {
    of: PhantomData<P>,
}

impl<P: Place> Play<(), View> for SeeState<P> {
    ghost then = { λ step before found after. StateSeen P.place step.word before found after };
}

pub(crate) struct SeeGot<T: Told, P: Place> {
    of: PhantomData<(T, P)>,
}

impl<T: Told, P: Place> Play<(), View> for SeeGot<T, P> {
    ghost then = { λ step before found after. GotSeen T.setting P.place step.word before found after };
}

pub(crate) struct Clear<P: Place> {
    of: PhantomData<P>,
}

impl<P: Place> Play<(), View> for Clear<P> {
    ghost then = { λ step before word after. Cleared P.place before word after };
}

pub(crate) struct Welcome;

impl Join<View> for Welcome {
    ghost both = { λ view other. joined view other };

    ghost spent = { Spent };
}
