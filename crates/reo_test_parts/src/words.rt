//! Two regions that pass a datum round, step by step and on two threads.
ghost use Rattle.std.specs.Prelude.{◌≡◌, ◌≤◌, IfOk, pos};
ghost use Rattle.reo_value.specs.declared.value.Value.TheVariants.{Int};
ghost use Rattle.reo_test_parts.specs.Ring.{ring, CanPass, moved, Turned, IsOpen};

use reo_fabric::{CellSpec, Entry, Fabric};
use reo_table::{Clock, RegionSeat, Words};
use reo_value::{Num, Value, value_of};
use sqlite_items::Items;
use std::alloc::{AllocError, Global};
use std::thread::{self, Threads};

const SEVEN: u64 = 9_223_372_036_854_775_823;

fn value_seven() -> Value
    ensures { result ≡ Int (pos 7) }
{
    let Some(number) = Num::new(7) else {
        unreachable!();
    };
    Value::Int(number)
}

/// Two regions, and two cells between them.
fn ring_fabric(alloc: Global) -> Result<Fabric, AllocError>
    ensures { IfOk result (λ fabric. fabric ≡ ring) }
{
    let there = CellSpec {
        filler: 0,
        taker: 1,
        first: Some(value_seven()),
    };
    let back = CellSpec {
        filler: 1,
        taker: 0,
        first: None,
    };
    Ok(Fabric {
        regions: 2,
        parties: 0,
        cells: Items::from_slice(alloc, &[there, back])?,
        ports: Items::from_slice(alloc, &[])?,
    })
}

/// An entry that takes a value from one cell and fills another with it.
fn moves(alloc: Global, region: u32, from: u32, to: u32, value: Value) -> Result<Entry, AllocError>
    ensures { IfOk result (λ entry. entry ≡ moved region from to value) }
{
    Ok(Entry {
        region,
        choice: 0,
        takes: Items::from_slice(alloc, &[(from, value)])?,
        fills: Items::from_slice(alloc, &[(to, value)])?,
        puts: Items::from_slice(alloc, &[])?,
        gets: Items::from_slice(alloc, &[])?,
    })
}

/// A turn of a region that moves what is in one cell to another: what the commit word was, and the number of the commit, if
/// there was one.
fn pass_on(
    alloc: Global,
    words: &Words,
    seat: &mut RegionSeat,
    region: u32,
    from: u32,
    to: u32,
) -> Result<(Clock, Option<u64>), AllocError>
    requires { CanPass words.now seat.old region from to }
    ensures ready { CanPass words.now seat.new region from to }
    ensures turned { IfOk result (λ came. Turned seat.old seat.new region from to came.1) }
{
    seat.begin(words);
    let clock = seat.clock(words);
    let full = seat.see_cell(words, from);
    let empty = seat.see_cell(words, to);
    let Clock::Clear(_) = clock else {
        return Ok((clock, None));
    };
    let Some(value) = value_of(full) else {
        return Ok((clock, None));
    };
    if empty != 0 {
        return Ok((clock, None));
    }
    let entry = moves(alloc, region, from, to, value)?;
    let number = seat.commit(words, &entry.lent());
    seat.set_cell(words, from, 0);
    seat.set_cell(words, to, full);
    Ok((clock, Some(number)))
}

/// Lets a region move data until the limit is met, and gives the numbers of its commits in order.
fn pass_all(
    alloc: Global,
    words: &Words,
    mut seat: RegionSeat,
    region: u32,
    from: u32,
    to: u32,
) -> Result<Vec<u64>, AllocError>
    requires { CanPass words.now seat region from to }
{
    let mut numbers = Vec::new(alloc);
    for _ in 0..u64::MAX {
        match pass_on(alloc, words, &mut seat, region, from, to)? {
            (Clock::AtLimit(_), _) => return Ok(numbers),
            (_, Some(number)) => numbers.push(number)?,
            (_, None) => {}
        }
    }
    Ok(numbers)
}

/// The words of the ring, and the seats of its regions.
#[derive(Drop)]
struct Open {
    words: Words,
    zero: RegionSeat,
    one: RegionSeat,
}

/// Both regions are ready to move data.
fn open_ring(alloc: Global, limit: u64) -> Result<Open, AllocError>
    requires some { 1 ≤ limit }
    requires small { limit ≤ 100000 }
    ensures { IfOk result (λ made. IsOpen made.words made.zero made.one) }
{
    let fabric = ring_fabric(alloc)?;
    let (words, mut root) = Words::new(alloc, &fabric, limit)?;
    let zero = root.region_seat(&words, 0);
    let one = root.region_seat(&words, 1);
    Ok(Open { words, zero, one })
}

/// Both regions move data until the limit is met, each on a thread of its own. Gives the numbers of their commits.
fn pass_both<R: Threads>(
    rt: &R,
    alloc: Global,
    words: &Words,
    zero: RegionSeat,
    one: RegionSeat,
) -> Result<(Vec<u64>, Vec<u64>), AllocError>
    requires zero { CanPass words.now zero 0 1 0 }
    requires one { CanPass words.now one 1 0 1 }
{
    let (zeros, ones) = thread::join(
        rt,
        move || -> Result<Vec<u64>, AllocError>
            requires { CanPass words.now zero 0 1 0 }
        { pass_all(alloc, words, zero, 0, 1, 0) },
        move || -> Result<Vec<u64>, AllocError>
            requires { CanPass words.now one 1 0 1 }
        { pass_all(alloc, words, one, 1, 0, 1) },
    );
    Ok((zeros?, ones?))
}

/// What two regions read, one after the other, while the second commits and stores.
#[derive(Clone, Copy, Debug, PartialEq, Eq)]
struct Row {
    rounds: (u64, u64),
    clocks: (Clock, Clock),
    before: (u64, u64),
    number: u64,
    between: u64,
    after: (u64, u64),
}

/// The region `one` moves what is in one cell to another, and `zero` looks on.
fn step_by_step(
    alloc: Global,
    words: &Words,
    zero: &mut RegionSeat,
    one: &mut RegionSeat,
    regions: (u32, u32),
    from: u32,
    to: u32,
) -> Result<Option<Row>, AllocError>
    requires zero { CanPass words.now zero.old regions.0 to from }
    requires one { CanPass words.now one.old regions.1 from to }
{
    let round = one.begin(words);
    let clock = one.clock(words);
    let full = one.see_cell(words, from);
    let empty = one.see_cell(words, to);
    let Clock::Clear(_) = clock else {
        return Ok(None);
    };
    let Some(value) = value_of(full) else {
        return Ok(None);
    };
    if empty != 0 {
        return Ok(None);
    }
    let entry = moves(alloc, regions.1, from, to, value)?;
    let number = one.commit(words, &entry.lent());
    let zero_round = zero.begin(words);
    let zero_clock = zero.clock(words);
    let between = zero.see_cell(words, from);
    one.set_cell(words, from, 0);
    one.set_cell(words, to, full);
    let after = (zero.see_cell(words, from), zero.see_cell(words, to));
    Ok(Some(Row {
        rounds: (round, zero_round),
        clocks: (clock, zero_clock),
        before: (full, empty),
        number,
        between,
        after,
    }))
}

#[test]
fn two_regions_step_by_step(rt: HostRuntime) {
    let alloc = rt.alloc();
    let Open {
        words,
        mut zero,
        mut one,
    } = open_ring(alloc, 1).expect(&rt, "ample memory");
    let row = step_by_step(alloc, &words, &mut zero, &mut one, (0, 1), 0, 1)
        .expect(&rt, "ample memory")
        .expect(&rt, "a commit");
    assert_eq!(rt; row.rounds, (1, 1));
    assert_eq!(rt; row.clocks, (Clock::Clear(0), Clock::AtLimit(1)));
    assert_eq!(rt; row.before, (SEVEN, 0));
    assert_eq!(rt; row.number, 0);
    assert_eq!(rt; row.between, SEVEN);
    assert_eq!(rt; row.after, (0, SEVEN));
}

/// These are the even numbers from 0 on and those the odd ones, as many or one fewer.
fn take_turns(evens: &[u64], odds: &[u64]) -> bool {
    let even = evens.iter().enumerate().all(|(place, number)| *number / 2 == place as u64
        && *number % 2 == 0);
    let odd = odds.iter().enumerate().all(|(place, number)| *number / 2 == place as u64
        && *number % 2 == 1);
    even && odd && odds.len() <= evens.len() && evens.len() - odds.len() <= 1
}

#[test]
fn two_threads_pass_a_datum_round(rt: HostRuntime) {
    let alloc = rt.alloc();
    let Open { words, zero, one } = open_ring(alloc, 4000).expect(&rt, "ample memory");
    let (zeros, ones) = pass_both(&rt, alloc, &words, zero, one).expect(&rt, "ample memory");
    assert!(rt; take_turns(ones.as_slice(), zeros.as_slice()));
    assert!(rt; zeros.len() >= 1999 && zeros.len() <= 2001);
    assert!(rt; ones.len() >= 1999 && ones.len() <= 2001);
}
