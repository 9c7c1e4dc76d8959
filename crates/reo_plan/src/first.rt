//! The first of a region's firings that a reading allows.
ghost use Rattle.std.specs.Prelude.{◌≡◌, ℕ, ◌<◌, [], ◌∷◌, position, Bool, true, false};
ghost use Rattle.std.specs.List.{list_all};
ghost use Rattle.reo_plan.specs.inside.Columns.{column_bit, MissesRows};
ghost use Rattle.reo_plan.specs.inside.Marks.{AreMarks, Misses};
ghost use Rattle.reo_plan.specs.inside.Needs.{some_offer};
ghost use Rattle.reo_plan.specs.inside.Asks.{so_in, number_so, IsAsks, IsShared};
ghost use Rattle.reo_plan.specs.inside.Plans.{fits};

use crate::asks::{Asks, Shared};
use crate::columns::{RuledOut, next_row, none_out, rule_out};
use crate::evaluate::is_so;
use crate::marks::{Marks, is_known, lowest, mark, no_marks, unmarked, without_bit};
use crate::needs::unoffered;
use crate::row::Row;
use crate::sources::Words;
use crate::view::View;
use reo_fabric::Reading;
use reo_flow::{Fact, Giver};
use reo_net::Net;
use reo_value::Lexicon;
use sqlite_items::at;

#[inline(always)]
fn number_so(
    net: &Net,
    texts: &Lexicon,
    reading: &View<'_>,
    slots: &[Giver],
    facts: &[Fact],
    number: u32,
) -> bool
    ensures { result ≡ number_so net.now texts.now reading.now slots.now facts.now number }
{
    match at(facts, number as usize) {
        Some(fact) => is_so(net, texts, reading, slots, fact),
        None => false,
    }
}

/// Whether the fact with this number is so, as it is marked or else as it is found.
#[inline(always)]
fn found_so(
    net: &Net,
    texts: &Lexicon,
    reading: &View<'_>,
    slots: &[Giver],
    facts: &[Fact],
    marks: &mut Marks,
    number: u32,
) -> bool
    requires { AreMarks (number_so net.now texts.now reading.now slots.now facts.now) marks.old }
    ensures so { result ≡ number_so net.now texts.now reading.now slots.now facts.now number }
    ensures marks { AreMarks (number_so net.now texts.now reading.now slots.now facts.now) marks.new }
{
    if is_known(marks, number) {
        return true;
    }
    let is_so = number_so(net, texts, reading, slots, facts, number);
    mark(marks, number, is_so);
    is_so
}

/// Whether the facts with these numbers are so.
fn all_found_so(
    net: &Net,
    texts: &Lexicon,
    reading: &View<'_>,
    slots: &[Giver],
    facts: &[Fact],
    marks: &mut Marks,
    numbers: &[u32],
) -> bool
    requires { AreMarks (number_so net.now texts.now reading.now slots.now facts.now) marks.old }
    ensures so { result ≡ list_all (number_so net.now texts.now reading.now slots.now facts.now) numbers.now }
    ensures marks { AreMarks (number_so net.now texts.now reading.now slots.now facts.now) marks.new }
{
    for number in numbers {
        if !found_so(net, texts, reading, slots, facts, marks, *number) {
            return false;
        }
    }
    true
}

/// Whether these facts are so.
#[inline(always)]
fn all_so<W: Words>(net: &Net, texts: &Lexicon, words: &W, slots: &[Giver], facts: &[Fact]) -> bool
    ensures { result ≡ list_all (so_in net.now texts.now (W.reading words.now) slots.now) facts.now }
{
    for fact in facts {
        if !is_so(net, texts, words, slots, fact) {
            return false;
        }
    }
    true
}

/// Whether all that a row asks is so. Where an offer that it needs is among those that are missing, it is not; and what it
/// shares with no other row is asked before the rest.
fn row_fits(
    net: &Net,
    texts: &Lexicon,
    reading: &View<'_>,
    shared: &Shared,
    missing: u64,
    marks: &mut Marks,
    row: &Row,
    asks: &Asks,
) -> bool
    requires asks { IsAsks net.now shared.now.slots shared.now.facts row.now asks.now }
    requires missing { Misses (some_offer reading.now.ports) missing }
    requires marks { AreMarks (number_so net.now texts.now reading.now shared.now.slots shared.now.facts) marks.old }
    ensures fits { result ≡ fits net.now texts.now reading.now row.now }
    ensures marks { AreMarks (number_so net.now texts.now reading.now shared.now.slots shared.now.facts) marks.new }
{
    if missing & asks.needs != 0 {
        return false;
    }
    if marks.failed & asks.mask != 0 {
        return false;
    }
    let own = row.slots.as_slice();
    let rest = asks.rest.as_slice();
    if !all_so(net, texts, reading, own, rest) {
        return false;
    }
    let slots = shared.slots.as_slice();
    let facts = shared.facts.as_slice();
    let numbers = asks.numbers.as_slice();
    all_found_so(net, texts, reading, slots, facts, marks, numbers)
}

/// Up to how many rows each is looked at: of more, those that a fact rules out are passed over by their bits.
const FEW: usize = 64;

/// The only row, where all its facts are so: none of them is asked twice.
#[inline(always)]
fn only_row(net: &Net, texts: &Lexicon, reading: &Reading, row: &Row) -> Option<usize>
    ensures { result ≡ position (fits net.now texts.now reading.now) (row.now ∷ []) }
{
    if all_so(
        net,
        texts,
        reading,
        row.slots.as_slice(),
        row.facts.as_slice(),
    ) {
        Some(0)
    } else {
        None
    }
}

/// Whether all that a row asks is so. Where a fact that rows share fails, all rows that ask it are ruled out.
fn fits_or_rules_out(
    net: &Net,
    texts: &Lexicon,
    reading: &View<'_>,
    shared: &Shared,
    marks: &mut Marks,
    out: &mut RuledOut,
    row: &Row,
    asks: &Asks,
) -> bool
    requires asks { IsAsks net.now shared.now.slots shared.now.facts row.now asks.now }
    requires marks { AreMarks (number_so net.now texts.now reading.now shared.now.slots shared.now.facts) marks.old }
    ensures fits { result ≡ fits net.now texts.now reading.now row.now }
    ensures marks { AreMarks (number_so net.now texts.now reading.now shared.now.slots shared.now.facts) marks.new }
    ensures out { (p : ℕ → Bool) → ((number row : ℕ) → row < 4096 → p row ≡ true → number_so net.now texts.now reading.now shared.now.slots shared.now.facts number ≡ false → column_bit shared.now.columns number row ≡ 0) → MissesRows p out.old.words → MissesRows p out.new.words }
{
    let own = row.slots.as_slice();
    let rest = asks.rest.as_slice();
    if !all_so(net, texts, reading, own, rest) {
        return false;
    }
    let slots = shared.slots.as_slice();
    let facts = shared.facts.as_slice();
    let mut left = unmarked(marks.met, asks.mask);
    while left != 0 {
        let number = lowest(left);
        let is_so = number_so(net, texts, reading, slots, facts, number);
        mark(marks, number, is_so);
        if !is_so {
            rule_out(out, shared.columns.as_slice(), number);
            return false;
        }
        left = without_bit(left, number);
    }
    true
}

/// The first row of few. A row is passed over by one look at the offers that it needs, and by one at what has failed.
#[inline(never)]
fn first_of_few(
    net: &Net,
    texts: &Lexicon,
    reading: &Reading,
    shared: &Shared,
    rows: &[Row],
) -> Option<usize>
    requires { IsShared net.now rows.now shared.now }
    ensures { result ≡ position (fits net.now texts.now reading.now) rows.now }
{
    let view = View::new(reading);
    let missing = unoffered(reading.ports.as_slice());
    let mut marks = no_marks();
    let asks = shared.asks.as_slice();
    for row in 0..rows.len() {
        if row_fits(
            net, texts, &view, shared, missing, &mut marks, &rows[row], &asks[row],
        ) {
            return Some(row);
        }
    }
    None
}

/// The first row of many. Those that a fact has ruled out are passed over by their bits.
#[inline(never)]
fn first_of_many(
    net: &Net,
    texts: &Lexicon,
    reading: &Reading,
    shared: &Shared,
    rows: &[Row],
) -> Option<usize>
    requires { IsShared net.now rows.now shared.now }
    ensures { result ≡ position (fits net.now texts.now reading.now) rows.now }
{
    let view = View::new(reading);
    let mut marks = no_marks();
    let mut out = none_out();
    let asks = shared.asks.as_slice();
    let mut row = next_row(&out, 0);
    while row < rows.len() {
        if fits_or_rules_out(
            net, texts, &view, shared, &mut marks, &mut out, &rows[row], &asks[row],
        ) {
            return Some(row);
        }
        row = next_row(&out, row + 1);
    }
    None
}

/// The first row of which all facts are so.
#[inline(always)]
pub(crate) fn first_row(
    net: &Net,
    texts: &Lexicon,
    reading: &Reading,
    shared: &Shared,
    rows: &[Row],
) -> Option<usize>
    requires { IsShared net.now rows.now shared.now }
    ensures { result ≡ position (fits net.now texts.now reading.now) rows.now }
{
    if rows.len() == 1 {
        only_row(net, texts, reading, &rows[0])
    } else if rows.len() <= FEW {
        first_of_few(net, texts, reading, shared, rows)
    } else {
        first_of_many(net, texts, reading, shared, rows)
    }
}
