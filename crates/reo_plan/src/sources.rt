//! Where data come from: the words of a reading, or what an entry took from cells and ports.
ghost use Rattle.std.specs.Prelude.{◌≡◌, ℕ, nat_eq, false, Option, Some, None, IfSome};
ghost use Rattle.std.specs.Option.{option_map_or};
ghost use Rattle.reo_value.specs.Code.{IsValue};
ghost use Rattle.reo_fabric.specs.Entry.{at_place};
ghost use Rattle.reo_fabric.specs.declared.reading.Reading.{Reading as AnyReading};
ghost use Rattle.reo_flow.specs.Tests.{decoded};
ghost use Rattle.reo_flow.specs.Flow.{Sources as AnySources, sources_of, offered_value, is_offered, is_empty};
ghost use Rattle.reo_plan.specs.inside.Back.{reading_back};

use crate::view::{View, cell_word, port_words};
use reo_fabric::{EntryRef, Reading};
use reo_value::{Value, value_of, word_of};

/// What comes out of cells and is offered at put ports.
pub(crate) trait Sources {
    ghost sources: { Self → AnySources };

    fn in_cell(&self, cell: u32) -> Option<Value>
        ensures { result ≡ (sources self.now).cell cell };

    fn at_port(&self, port: u32) -> Option<Value>
        ensures { result ≡ (sources self.now).port port };
}

/// The words of a reading, which also tell what is offered at all ports and which cells are empty.
pub(crate) trait Words: Sources {
    ghost reading: { Self → AnyReading };

    fn is_offered(&self, port: u32) -> bool
        ensures { result ≡ is_offered (reading self.now) port };

    fn is_empty(&self, cell: u32) -> bool
        ensures { result ≡ is_empty (reading self.now) cell };

    /// What comes out of cells and is offered at put ports is what the reading tells.
    ghost tells: { (words : Self) → Self.sources words ≡ sources_of (reading words) };
}

impl Sources for Reading {
    ghost use Rattle.reo_flow.specs.Flow.{sources_of};

    ghost sources = { sources_of };

    fn in_cell(&self, cell: u32) -> Option<Value> {
        match cell_word(self.cells.as_slice(), cell) {
            Some(word) => decoded(word),
            None => None,
        }
    }

    fn at_port(&self, port: u32) -> Option<Value> {
        match port_words(self.ports.as_slice(), port) {
            Some(words) => offered_value(words),
            None => None,
        }
    }
}

impl Words for Reading {
    ghost use Rattle.std.specs.Prelude.{refl};

    ghost reading = { λ reading. reading };

    fn is_offered(&self, port: u32) -> bool {
        says_offered(port_words(self.ports.as_slice(), port))
    }

    fn is_empty(&self, cell: u32) -> bool {
        says_empty(cell_word(self.cells.as_slice(), cell))
    }

    ghost tells = { λ reading. refl };
}

impl<'a> Sources for View<'a> {
    ghost use Rattle.reo_flow.specs.Flow.{sources_of};

    ghost sources = { sources_of };

    fn in_cell(&self, cell: u32) -> Option<Value> {
        match self.cell_word(cell) {
            Some(word) => decoded(word),
            None => None,
        }
    }

    fn at_port(&self, port: u32) -> Option<Value> {
        match self.port_words(port) {
            Some(words) => offered_value(words),
            None => None,
        }
    }
}

impl<'a> Words for View<'a> {
    ghost use Rattle.std.specs.Prelude.{refl};

    ghost reading = { λ reading. reading };

    fn is_offered(&self, port: u32) -> bool {
        says_offered(self.port_words(port))
    }

    fn is_empty(&self, cell: u32) -> bool {
        says_empty(self.cell_word(cell))
    }

    ghost tells = { λ reading. refl };
}

impl<'a> Sources for EntryRef<'a> {
    ghost use Rattle.reo_flow.specs.Flow.{sources_of};
    ghost use Rattle.reo_plan.specs.inside.Back.{reading_back};

    ghost sources = { λ entry. sources_of (reading_back entry) };

    fn in_cell(&self, cell: u32) -> Option<Value> {
        taken_from(self, cell)
    }

    fn at_port(&self, port: u32) -> Option<Value> {
        put_at(self, port)
    }
}

#[inline(always)]
fn decoded(word: u64) -> Option<Value>
    ensures { result ≡ decoded word }
{
    value_of(word)
}

fn offered_value(words: (u64, u64)) -> Option<Value>
    ensures { result ≡ offered_value words }
{
    if words.0 == 1 { decoded(words.1) } else { None }
}

#[inline(always)]
fn says_offered(words: Option<(u64, u64)>) -> bool
    ensures { result ≡ option_map_or (λ words. nat_eq words.0 1) words false }
{
    match words {
        Some(words) => words.0 == 1,
        None => false,
    }
}

#[inline(always)]
fn says_empty(word: Option<u64>) -> bool
    ensures { result ≡ option_map_or (λ word. nat_eq word 0) word false }
{
    match word {
        Some(word) => word == 0,
        None => false,
    }
}

/// The value, whose code tells that it is one.
pub(crate) fn known(value: &Value) -> Value
    ensures same { result ≡ value.now }
    ensures value { IsValue value.now }
{
    let _code = word_of(*value);
    *value
}

/// The value at a place.
#[inline(always)]
fn value_at(places: &[(u32, Value)], place: u32) -> Option<Value>
    ensures found { result ≡ at_place places.now place }
    ensures value { IfSome result IsValue }
{
    for own in places {
        if own.0 == place {
            return Some(known(&own.1));
        }
    }
    None
}

/// What an entry took from a cell.
fn taken_from(entry: &EntryRef<'_>, cell: u32) -> Option<Value>
    ensures { result ≡ (sources_of (reading_back entry.now)).cell cell }
{
    value_at(entry.takes(), cell)
}

/// What an entry put at a port.
fn put_at(entry: &EntryRef<'_>, port: u32) -> Option<Value>
    ensures { result ≡ (sources_of (reading_back entry.now)).port port }
{
    value_at(entry.puts(), port)
}
