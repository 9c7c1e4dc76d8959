//! A party of a circuit.
ghost use Rattle.std.specs.Prelude.{◌≡◌, ◌↔◌, Some, None, IfOk, IfErr};
ghost use Rattle.reo_value.specs.declared.op.Way.TheVariants.{Put as AnyPut, Get as AnyGet};
ghost use Rattle.reo_value.specs.declared.op.Op.TheVariants as AnyOp;
ghost use Rattle.reo_coupling.specs.PortViews.{fresh_party, after_set_put, after_offer};
ghost use Rattle.reo_port.specs.Party.{ways_of, call_at, same_way, refused, refusal_of, IsPartyOf, IsCollected, IsCode};
ghost use Rattle.reo_value.specs.Code.{code_of, IsValue};

use crate::slots::{all_ways, call_in, no_calls, note, way_in};
use reo_fabric::Fabric;
use reo_table::{PartySeat, Words};
use reo_value::{Op, Value, Way, value_of};
use std::alloc::{AllocError, Global};
use std::marker::Model;

/// Why a call was not posted.
#[derive(Clone, Copy, Debug, PartialEq, Eq)]
pub enum PortRefusal {
    /// The party does not own the port.
    NotMine,
    /// Data go the other way at the port.
    WrongWay,
    /// A call stands at the port that was not collected.
    Already,
}

/// What came of collecting a call.
#[derive(Clone, Copy, Debug, PartialEq, Eq)]
pub enum Collected {
    /// The call was answered with this value at this number, and the port is idle.
    Answered(Value, u64),
    /// The call is not answered yet.
    Waiting,
    /// No call of the party stands at the port.
    NoCall,
}

/// A party's seat, the ports that the party owns, and its calls that stand at them.
#[derive(Drop)]
pub struct Party {
    seat: PartySeat,
    ways: Vec<Option<Way>>,
    calls: Vec<Option<Op>>,
}

impl Model for Party {
    ghost use Rattle.reo_port.specs.Party.{PartyValue, AreNoted};

    ghost Value = { PartyValue };

    ghost view = { λ p. record { id = p.seat.id; view = p.seat.view; ways = p.ways.items } };

    ghost invariant = { λ p. AreNoted p.ways.items p.seat.view p.calls.items };
}

impl Party {
    /// A party with a seat that made no offer. Only this takes memory.
    pub fn new(
        alloc: Global,
        seat: PartySeat,
        fabric: &Fabric,
        party: u32,
    ) -> Result<Party, AllocError>
        requires { seat.view ≡ fresh_party party }
        ensures { IfOk result (λ made. made ≡ record { id = seat.id; view = seat.view; ways = ways_of fabric.now party }) }
    {
        let ways = all_ways(alloc, fabric, party)?;
        let calls = no_calls(alloc, ways.len())?;
        Ok(Party { seat, ways, calls })
    }

    /// The call of this party that stands at the port.
    pub fn call(&self, port: u32) -> Option<Op>
        ensures { result ≡ call_at self.now port }
    {
        call_in(self.calls.as_slice(), port)
    }

    /// The seat as it is.
    pub fn into_seat(self) -> PartySeat
        ensures { result ≡ record { id = self.id; view = self.view } }
    {
        self.seat
    }

    /// Why a call of this way may not be posted at the port.
    fn refusal(&self, port: u32, way: Way) -> Option<PortRefusal>
        ensures { result ≡ refusal_of self.now port way }
    {
        refusal_in(way_in(self.ways.as_slice(), port), way, self.call(port))
    }

    /// Posts a put.
    pub fn put(&mut self, words: &Words, port: u32, value: Value) -> Result<(), PortRefusal>
        requires { IsPartyOf words.now self.old }
        ensures refused { IfErr result (λ why. (refusal_of self.old port AnyPut ≡ Some why) × (self.new ≡ self.old)) }
        ensures posted { IfOk result (λ done. (refusal_of self.old port AnyPut ≡ None)
            × (self.new ≡ record self.old { view = after_offer (after_set_put self.old.view port value) port })) }
    {
        if let Some(why) = self.refusal(port, Way::Put) {
            return Err(why);
        }
        let call = put_call(port, &value);
        self.seat.set_put(words, port, value);
        self.seat.offer(words, port);
        note(&mut self.calls, port, call);
        Ok(())
    }

    /// Posts a get.
    pub fn get(&mut self, words: &Words, port: u32) -> Result<(), PortRefusal>
        requires { IsPartyOf words.now self.old }
        ensures refused { IfErr result (λ why. (refusal_of self.old port AnyGet ≡ Some why) × (self.new ≡ self.old)) }
        ensures posted { IfOk result (λ done. (refusal_of self.old port AnyGet ≡ None)
            × (self.new ≡ record self.old { view = after_offer self.old.view port })) }
    {
        if let Some(why) = self.refusal(port, Way::Get) {
            return Err(why);
        }
        self.seat.offer(words, port);
        note(&mut self.calls, port, get_call(port));
        Ok(())
    }

    /// Collects the call at the port, if it is answered.
    pub fn collect(&mut self, words: &Words, port: u32) -> Collected
        requires { IsPartyOf words.now self.old }
        ensures { IsCollected words.now self.old self.new port result }
    {
        if self.call(port).is_none() {
            return Collected::NoCall;
        }
        let state = self.seat.see_state(words, port);
        if state < 3 {
            return Collected::Waiting;
        }
        let word = self.seat.see_got(words, port);
        self.seat.clear(words, port);
        note(&mut self.calls, port, None);
        Collected::Answered(value_with(word), state - 3)
    }
}

/// The value with this code.
fn value_with(word: u64) -> Value
    requires { IsCode word }
    ensures code { code_of result ≡ word }
    ensures real { IsValue result }
{
    let Some(value) = value_of(word) else {
        unreachable!();
    };
    value
}

fn put_call(port: u32, value: &Value) -> Option<Op>
    ensures { result ≡ Some (AnyOp.Put port value.now) }
{
    Some(Op::Put(port, *value))
}

fn get_call(port: u32) -> Option<Op>
    ensures { result ≡ Some (AnyOp.Get port) }
{
    Some(Op::Get(port))
}

/// The first reason against a call of this way, at a port of the party's own way where this call stands.
fn refusal_in(own: Option<Way>, way: Way, call: Option<Op>) -> Option<PortRefusal>
    ensures { result ≡ refused own way call }
{
    let Some(own) = own else {
        return Some(PortRefusal::NotMine);
    };
    if !is_same(own, way) {
        return Some(PortRefusal::WrongWay);
    }
    match call {
        Some(_) => Some(PortRefusal::Already),
        None => None,
    }
}

fn is_same(one: Way, other: Way) -> bool
    ensures { result ≡ same_way one other }
{
    match one {
        Way::Put => match other {
            Way::Put => true,
            Way::Get => false,
        },
        Way::Get => match other {
            Way::Put => false,
            Way::Get => true,
        },
    }
}
