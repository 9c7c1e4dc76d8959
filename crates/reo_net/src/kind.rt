//! The kinds of channel, and all that is said of a channel by its kind.
ghost use Rattle.std.specs.Prelude.{◌≡◌, ◌↔◌, IsTrue, IfOk};
ghost use Rattle.reo_net.specs.Kind.{is_fifo, hands_on, is_incoming, direction_of_b, BothFire, OnlyAFires, Passes, Buffers, ChannelStep};

use reo_guard::{Fun, Guard, apply, holds};
use reo_value::{Lexicon, Value};
use std::alloc::{AllocError, Global};

/// The kinds of channel.
#[derive(Drop)]
pub enum Kind {
    /// Takes a datum at end a and hands it on at end b, at once.
    Sync,
    /// Hands on at once what it takes, or loses it.
    Lossy,
    /// Takes a datum at both ends at once, and drops both.
    Drain,
    /// A buffer of one place, with what it holds at first.
    Fifo(Option<Value>),
    /// Hands on at once the data that meet the guard, and loses the others.
    Filter(Guard),
    /// Hands on at once what the function yields, and takes nothing where it yields nothing.
    Transform(Fun),
}

pub(crate) fn same(x: Option<Value>, y: Option<Value>) -> bool
    ensures { IsTrue result ↔ (x ≡ y) }
{
    x == y
}

// Whether a buffer that holds `held` may have `a` and `b` at its ends and hold `new` then.
fn buffers(held: Option<Value>, a: Option<Value>, b: Option<Value>, new: Option<Value>) -> bool
    ensures { IsTrue result ↔ Buffers held a b new }
{
    match (held, a, b) {
        (None, Some(_), None) => same(new, a),
        (Some(_), None, Some(_)) => same(b, held) && new.is_none(),
        _ => false,
    }
}

impl Kind {
    /// A copy of the kind.
    pub fn try_clone(&self, alloc: Global) -> Result<Kind, AllocError>
        ensures { IfOk result (λ copy. copy ≡ self.now) }
    {
        Ok(match self {
            Kind::Sync => Kind::Sync,
            Kind::Lossy => Kind::Lossy,
            Kind::Drain => Kind::Drain,
            Kind::Fifo(first) => Kind::Fifo(*first),
            Kind::Filter(guard) => Kind::Filter(guard.try_clone(alloc)?),
            Kind::Transform(fun) => Kind::Transform(fun.try_clone(alloc)?),
        })
    }

    /// Whether it is a buffer.
    pub fn is_fifo(&self) -> bool
        ensures { result ≡ is_fifo self.now }
    {
        match self {
            Kind::Sync => false,
            Kind::Lossy => false,
            Kind::Drain => false,
            Kind::Fifo(_) => true,
            Kind::Filter(_) => false,
            Kind::Transform(_) => false,
        }
    }

    /// Whether what comes out at end b is made, at once, of what goes in at end a.
    pub fn hands_on(&self) -> bool
        ensures { result ≡ hands_on self.now }
    {
        match self {
            Kind::Sync => true,
            Kind::Lossy => true,
            Kind::Drain => false,
            Kind::Fifo(_) => false,
            Kind::Filter(_) => true,
            Kind::Transform(_) => true,
        }
    }

    /// Whether data come into the node at end b.
    pub fn comes_out_at_b(&self) -> bool
        ensures { result ≡ is_incoming (direction_of_b self.now) }
    {
        match self {
            Kind::Sync => true,
            Kind::Lossy => true,
            Kind::Drain => false,
            Kind::Fifo(_) => true,
            Kind::Filter(_) => true,
            Kind::Transform(_) => true,
        }
    }

    // Whether both ends may fire with these data.
    fn both_fire(&self, texts: &Lexicon, d: Value, e: Value) -> bool
        ensures { IsTrue result ↔ BothFire texts.now self.now d e }
    {
        match self {
            Kind::Sync => e == d,
            Kind::Lossy => e == d,
            Kind::Drain => true,
            Kind::Fifo(_) => false,
            Kind::Filter(guard) => holds(guard, d, texts) && e == d,
            Kind::Transform(fun) => apply(fun, d, texts) == Some(e),
        }
    }

    // Whether end a may fire alone with this datum.
    fn only_a_fires(&self, texts: &Lexicon, d: Value) -> bool
        ensures { IsTrue result ↔ OnlyAFires texts.now self.now d }
    {
        match self {
            Kind::Sync => false,
            Kind::Lossy => true,
            Kind::Drain => false,
            Kind::Fifo(_) => false,
            Kind::Filter(guard) => !holds(guard, d, texts),
            Kind::Transform(_) => false,
        }
    }

    // Whether a channel that is no buffer may have this at its ends when it fires.
    fn passes(&self, texts: &Lexicon, a: Option<Value>, b: Option<Value>) -> bool
        ensures { IsTrue result ↔ Passes texts.now self.now a b }
    {
        match (a, b) {
            (Some(d), Some(e)) => self.both_fire(texts, d, e),
            (Some(d), None) => self.only_a_fires(texts, d),
            (None, _) => false,
        }
    }

    /// Whether a channel of this kind that holds `held` may have `a` and `b` at its ends and hold `new` then.
    pub fn allows(
        &self,
        texts: &Lexicon,
        held: Option<Value>,
        a: Option<Value>,
        b: Option<Value>,
        new: Option<Value>,
    ) -> bool
        ensures { IsTrue result ↔ ChannelStep texts.now self.now held a b new }
    {
        match self {
            Kind::Fifo(_) => buffers(held, a, b, new),
            Kind::Sync => self.passes(texts, a, b) && same(new, held),
            Kind::Lossy => self.passes(texts, a, b) && same(new, held),
            Kind::Drain => self.passes(texts, a, b) && same(new, held),
            Kind::Filter(_) => self.passes(texts, a, b) && same(new, held),
            Kind::Transform(_) => self.passes(texts, a, b) && same(new, held),
        }
    }
}
