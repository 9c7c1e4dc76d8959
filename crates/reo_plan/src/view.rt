//! A reading as it is looked at: where its cells rise, the place of a cell is guessed before it is searched for.
ghost use Rattle.std.specs.Prelude.{◌≡◌, map, IfSome};
ghost use Rattle.std.specs.Bool.{OnTrue};
ghost use Rattle.reo_fabric.specs.Entry.{at_place, RisesFrom};

use reo_fabric::Reading;
use sqlite_items::at;
use std::marker::Model;

/// A reading, and whether its cells are known to rise.
#[derive(Drop)]
pub(crate) struct View<'a> {
    reading: &'a Reading,
    rises: bool,
}

impl<'a> Model for View<'a> {
    ghost use Rattle.std.specs.Bool.{OnTrue};
    ghost use Rattle.reo_fabric.specs.Entry.{RisesFrom};
    ghost use Rattle.reo_fabric.specs.declared.reading.Reading.{Reading as AnyReading};

    ghost Value = { AnyReading };

    ghost view = { λ v. v.reading.now };

    ghost invariant = { λ v. OnTrue v.rises (RisesFrom 0 v.reading.now.cells) };
}

/// The number of cells up to which a search is as fast as a guess.
const FEW: usize = 8;

impl<'a> View<'a> {
    /// The reading, whose cells are looked through once where there are many.
    pub(crate) fn new(reading: &'a Reading) -> View<'a>
        ensures { result ≡ reading.now }
    {
        let rises = many_rise(reading.cells.as_slice());
        View { reading, rises }
    }

    /// The word of a cell.
    #[inline(always)]
    pub(crate) fn cell_word(&self, cell: u32) -> Option<u64>
        ensures { result ≡ at_place self.now.cells cell }
    {
        let cells = self.reading.cells.as_slice();
        if self.rises {
            rising_word(cells, cell)
        } else {
            cell_word(cells, cell)
        }
    }

    /// The words of a port.
    #[inline(always)]
    pub(crate) fn port_words(&self, port: u32) -> Option<(u64, u64)>
        ensures { result ≡ at_place (map (λ p. (p.0, (p.1, p.2))) self.now.ports) port }
    {
        port_words(self.reading.ports.as_slice(), port)
    }
}

/// Whether each place is after the one before it.
fn rise(places: &[(u32, u64)]) -> bool
    ensures { OnTrue result (RisesFrom 0 places.now) }
{
    let mut low: u64 = 0;
    for place in places {
        let own = u64::from(place.0);
        if own < low {
            return false;
        }
        low = own + 1;
    }
    true
}

/// Whether there are many places, which rise.
fn many_rise(places: &[(u32, u64)]) -> bool
    ensures { OnTrue result (RisesFrom 0 places.now) }
{
    places.len() > FEW && rise(places)
}

/// Where a cell stands if its cells follow one another.
#[inline(always)]
fn place_guess(cells: &[(u32, u64)], cell: u32) -> usize {
    match at(cells, 0) {
        Some(first) => cell.wrapping_sub(first.0) as usize,
        None => 0,
    }
}

/// The word of a cell, if the cell stands at this place.
#[inline(always)]
fn word_there(cells: &[(u32, u64)], place: usize, cell: u32) -> Option<u64>
    requires { RisesFrom 0 cells.now }
    ensures { IfSome result (λ word. at_place cells.now cell ≡ Some word) }
{
    let found = at(cells, place)?;
    if found.0 == cell { Some(found.1) } else { None }
}

/// The word of a cell, which is mostly where it is looked for first.
#[inline(always)]
fn rising_word(cells: &[(u32, u64)], cell: u32) -> Option<u64>
    requires { RisesFrom 0 cells.now }
    ensures { result ≡ at_place cells.now cell }
{
    match word_there(cells, place_guess(cells, cell), cell) {
        Some(word) => Some(word),
        None => cell_word(cells, cell),
    }
}

#[inline(always)]
pub(crate) fn cell_word(cells: &[(u32, u64)], cell: u32) -> Option<u64>
    ensures { result ≡ at_place cells.now cell }
{
    for words in cells {
        if words.0 == cell {
            return Some(words.1);
        }
    }
    None
}

#[inline(always)]
pub(crate) fn port_words(ports: &[(u32, u64, u64)], port: u32) -> Option<(u64, u64)>
    ensures { result ≡ at_place (map (λ p. (p.0, (p.1, p.2))) ports.now) port }
{
    for words in ports {
        if words.0 == port {
            return Some((words.1, words.2));
        }
    }
    None
}
