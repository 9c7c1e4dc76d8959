//! A put and a get through one region, step by step and on three threads.
ghost use Rattle.std.specs.Prelude.{◌≡◌, ◌≤◌, IfOk, IfSome, IfNone};
ghost use Rattle.reo_port.specs.Party.{IsPartyOf};
ghost use Rattle.reo_test_ports.specs.Pipe.{pipe, piped, CanServe, IsOpen, OwesAnswers};

use reo_fabric::{Entry, Fabric, PortSpec};
use reo_port::{Collected, Party};
use reo_table::{Clock, Final, RegionSeat, Root, Words};
use reo_value::{Value, Way, value_of, word_of};
use sqlite_items::Items;
use std::alloc::{AllocError, Global};
use std::thread::{self, Threads};

/// A put port and a get port at one region.
fn pipe_fabric(alloc: Global) -> Result<Fabric, AllocError>
    ensures { IfOk result (λ fabric. fabric ≡ pipe) }
{
    let enter = PortSpec {
        way: Way::Put,
        region: 0,
        owner: Some(0),
    };
    let leave = PortSpec {
        way: Way::Get,
        region: 0,
        owner: Some(1),
    };
    Ok(Fabric {
        regions: 1,
        parties: 2,
        cells: Items::from_slice(alloc, &[])?,
        ports: Items::from_slice(alloc, &[enter, leave])?,
    })
}

/// The entry that hands a value on.
fn pipes(alloc: Global, value: &Value) -> Result<Entry, AllocError>
    ensures { IfOk result (λ entry. entry ≡ piped value.now) }
{
    Ok(Entry {
        region: 0,
        choice: 0,
        takes: Items::from_slice(alloc, &[])?,
        fills: Items::from_slice(alloc, &[])?,
        puts: Items::from_slice(alloc, &[(0, *value)])?,
        gets: Items::from_slice(alloc, &[(1, *value)])?,
    })
}

/// What the region read in a round, and what it committed.
#[derive(Clone, Copy, Debug, PartialEq, Eq)]
struct Row {
    round: u64,
    commits: u64,
    states: (u64, u64),
    offer: u64,
    number: u64,
}

/// A round of the region up to its commit, if both ports are offered and the commit word is below the limit.
fn commit_one(
    alloc: Global,
    words: &Words,
    seat: &mut RegionSeat,
) -> Result<Option<Row>, AllocError>
    requires { CanServe words.now seat.old }
    ensures owes { IfOk result (λ row. IfSome row (λ made. OwesAnswers words.now seat.new made.offer made.number)) }
    ensures idle { IfOk result (λ row. IfNone row (CanServe words.now seat.new)) }
{
    let round = seat.begin(words);
    let clock = seat.clock(words);
    let enter = seat.see_port(words, 0);
    if enter != 1 {
        return Ok(None);
    }
    let offer = seat.see_offer(words, 0);
    let leave = seat.see_port(words, 1);
    if leave != 1 {
        return Ok(None);
    }
    let Clock::Clear(commits) = clock else {
        return Ok(None);
    };
    let Some(value) = value_of(offer) else {
        return Ok(None);
    };
    let entry = pipes(alloc, &value)?;
    let number = seat.commit(words, &entry.lent());
    Ok(Some(Row {
        round,
        commits,
        states: (enter, leave),
        offer,
        number,
    }))
}

/// Stores what the get is due, and then both answers.
fn answer_both(words: &Words, seat: &mut RegionSeat, row: &Row)
    requires { OwesAnswers words.now seat.old row.now.offer row.now.number }
    ensures { CanServe words.now seat.new }
{
    let Some(value) = value_of(row.offer) else {
        unreachable!();
    };
    seat.set_got(words, 1, value);
    seat.answer(words, 1);
    seat.answer(words, 0);
}

/// The words of the pipe, its root, the region's seat, and both parties.
#[derive(Drop)]
struct Open {
    words: Words,
    root: Root,
    seat: RegionSeat,
    putter: Party,
    getter: Party,
}

/// The region can hand on, and both parties are idle.
fn open_pipe(alloc: Global, limit: u64) -> Result<Open, AllocError>
    requires some { 1 ≤ limit }
    requires small { limit ≤ 100000 }
    ensures { IfOk result (λ made. IsOpen made.words made.root made.seat made.putter made.getter) }
{
    let fabric = pipe_fabric(alloc)?;
    let (words, mut root) = Words::new(alloc, &fabric, limit)?;
    let seat = root.region_seat(&words, 0);
    let zero = root.party_seat(&words, 0);
    let one = root.party_seat(&words, 1);
    let putter = Party::new(alloc, zero, &fabric, 0)?;
    let getter = Party::new(alloc, one, &fabric, 1)?;
    Ok(Open {
        words,
        root,
        seat,
        putter,
        getter,
    })
}

/// All seats come home.
fn close_pipe(
    alloc: Global,
    words: Words,
    root: Root,
    seat: RegionSeat,
    putter: Party,
    getter: Party,
) -> Result<Final, AllocError>
    requires { IsOpen words root seat putter getter }
{
    let mut regions = Vec::new(alloc);
    regions.push(seat)?;
    let mut parties = Vec::new(alloc);
    parties.push(putter.into_seat())?;
    parties.push(getter.into_seat())?;
    Ok(words.close(root, regions, parties))
}

/// Posts a put of a number at the first port, and tells whether it was posted.
fn try_put(words: &Words, party: &mut Party, number: u64) -> bool
    requires { IsPartyOf words.now party.old }
    ensures { IsPartyOf words.now party.new }
{
    let Some(value) = value_of(code(number)) else {
        return false;
    };
    party.put(words, 0, value).is_ok()
}

/// Posts a get at the second port, and tells whether it was posted.
fn try_get(words: &Words, party: &mut Party) -> bool
    requires { IsPartyOf words.now party.old }
    ensures { IsPartyOf words.now party.new }
{
    party.get(words, 1).is_ok()
}

/// Collects the call at a port.
fn try_collect(words: &Words, party: &mut Party, port: u32) -> Collected
    requires { IsPartyOf words.now party.old }
    ensures { IsPartyOf words.now party.new }
{
    party.collect(words, port)
}

/// The code of a small number.
fn code(number: u64) -> u64 {
    9_223_372_036_854_775_809_u64.saturating_add(number.saturating_mul(2))
}

/// A call was answered with this number, at this place of the history.
fn is_answered(collected: Collected, number: u64, place: u64) -> bool {
    match collected {
        Collected::Answered(value, at) => word_of(value) == code(number) && at == place,
        _ => false,
    }
}

#[test]
fn a_put_is_handed_on_step_by_step(rt: HostRuntime) {
    let alloc = rt.alloc();
    let Open {
        words,
        root,
        mut seat,
        mut putter,
        mut getter,
    } = open_pipe(alloc, 100).expect(&rt, "ample memory");
    assert!(rt; try_put(&words, &mut putter, 1));
    assert_eq!(rt; try_collect(&words, &mut putter, 0), Collected::Waiting);
    assert!(rt; try_get(&words, &mut getter));
    let row = commit_one(alloc, &words, &mut seat)
        .expect(&rt, "ample memory")
        .expect(&rt, "a commit");
    assert_eq!(rt; (row.round, row.commits), (1, 0));
    assert_eq!(rt;
        (row.states, row.offer),
        ((1, 1), 9_223_372_036_854_775_811)
    );
    assert_eq!(rt; row.number, 0);
    assert_eq!(rt; try_collect(&words, &mut putter, 0), Collected::Waiting);
    answer_both(&words, &mut seat, &row);
    assert!(rt; is_answered(try_collect(&words, &mut putter, 0), 1, 0));
    assert_eq!(rt; try_collect(&words, &mut putter, 0), Collected::NoCall);
    assert!(rt; is_answered(try_collect(&words, &mut getter, 1), 1, 0));
    let last = close_pipe(alloc, words, root, seat, putter, getter).expect(&rt, "ample memory");
    assert_eq!(rt; (last.count, last.cells.len()), (1, 0));
}

/// Hands on a put, if both ports are offered, and tells whether it did.
fn serve_one(alloc: Global, words: &Words, seat: &mut RegionSeat) -> Result<bool, AllocError>
    requires { CanServe words.now seat.old }
    ensures { IfOk result (λ done. CanServe words.now seat.new) }
{
    let Some(row) = commit_one(alloc, words, seat)? else {
        return Ok(false);
    };
    answer_both(words, seat, &row);
    Ok(true)
}

/// Hands on until this many puts were, and gives the seat back.
fn serve_all(
    alloc: Global,
    words: &Words,
    mut seat: RegionSeat,
    count: u64,
) -> Result<RegionSeat, AllocError>
    requires { CanServe words.now seat }
    ensures { IfOk result (λ seat. CanServe words.now seat) }
{
    let mut done = 0;
    for _ in 0..u64::MAX {
        if done >= count {
            break;
        }
        if serve_one(alloc, words, &mut seat)? {
            done += 1;
        }
    }
    Ok(seat)
}

/// Collects at a port until the call there is answered, and gives the number and the place of its answer.
fn wait_at(words: &Words, party: &mut Party, port: u32) -> (u64, u64)
    requires { IsPartyOf words.now party.old }
    ensures { IsPartyOf words.now party.new }
{
    for _ in 0..u64::MAX {
        if let Collected::Answered(value, place) = try_collect(words, party, port) {
            return (word_of(value), place);
        }
    }
    (0, 0)
}

/// Puts the numbers from 0 on, one after the other, and gives what was answered.
fn put_all(
    alloc: Global,
    words: &Words,
    mut party: Party,
    count: u64,
) -> Result<(Party, Vec<(u64, u64)>), AllocError>
    requires { IsPartyOf words.now party }
    ensures { IfOk result (λ came. IsPartyOf words.now came.0) }
{
    let mut answers = Vec::new(alloc);
    for number in 0..count {
        try_put(words, &mut party, number);
        answers.push(wait_at(words, &mut party, 0))?;
    }
    Ok((party, answers))
}

/// Gets as many data, and gives what was answered.
fn get_all(
    alloc: Global,
    words: &Words,
    mut party: Party,
    count: u64,
) -> Result<(Party, Vec<(u64, u64)>), AllocError>
    requires { IsPartyOf words.now party }
    ensures { IfOk result (λ came. IsPartyOf words.now came.0) }
{
    let mut answers = Vec::new(alloc);
    for _ in 0..count {
        try_get(words, &mut party);
        answers.push(wait_at(words, &mut party, 1))?;
    }
    Ok((party, answers))
}

/// What a run of both parties and the region on threads of their own leaves.
#[derive(Drop)]
struct Came {
    seat: RegionSeat,
    putter: Party,
    getter: Party,
    puts: Vec<(u64, u64)>,
    gets: Vec<(u64, u64)>,
}

/// Both parties, each on a thread of its own.
fn both_parties<R: Threads + Sync>(
    rt: &R,
    alloc: Global,
    words: &Words,
    putter: Party,
    getter: Party,
    count: u64,
) -> Result<((Party, Vec<(u64, u64)>), (Party, Vec<(u64, u64)>)), AllocError>
    requires putter { IsPartyOf words.now putter }
    requires getter { IsPartyOf words.now getter }
    ensures { IfOk result (λ came. IsPartyOf words.now came.0.0 × IsPartyOf words.now came.1.0) }
{
    let (puts, gets) = thread::join(
        rt,
        move || -> Result<(Party, Vec<(u64, u64)>), AllocError>
            requires { IsPartyOf words.now putter }
            ensures { IfOk result (λ came. IsPartyOf words.entry.now came.0) }
        { put_all(alloc, words, putter, count) },
        move || -> Result<(Party, Vec<(u64, u64)>), AllocError>
            requires { IsPartyOf words.now getter }
            ensures { IfOk result (λ came. IsPartyOf words.entry.now came.0) }
        { get_all(alloc, words, getter, count) },
    );
    Ok((puts?, gets?))
}

/// The region and both parties, each on a thread of its own.
fn on_threads<R: Threads + Sync>(
    rt: &R,
    alloc: Global,
    words: &Words,
    seat: RegionSeat,
    putter: Party,
    getter: Party,
    count: u64,
) -> Result<Came, AllocError>
    requires seat { CanServe words.now seat }
    requires putter { IsPartyOf words.now putter }
    requires getter { IsPartyOf words.now getter }
    ensures seat { IfOk result (λ came. CanServe words.now came.seat) }
    ensures parties { IfOk result (λ came. IsPartyOf words.now came.putter × IsPartyOf words.now came.getter) }
{
    let (served, parties) = thread::join(
        rt,
        move || -> Result<RegionSeat, AllocError>
            requires { CanServe words.now seat }
            ensures { IfOk result (λ seat. CanServe words.entry.now seat) }
        { serve_all(alloc, words, seat, count) },
        move || -> Result<((Party, Vec<(u64, u64)>), (Party, Vec<(u64, u64)>)), AllocError>
            requires { IsPartyOf words.now putter × IsPartyOf words.now getter }
            ensures { IfOk result (λ came. IsPartyOf words.entry.now came.0.0 × IsPartyOf words.entry.now came.1.0) }
        { both_parties(rt, alloc, words, putter, getter, count) },
    );
    let ((putter, puts), (getter, gets)) = parties?;
    Ok(Came {
        seat: served?,
        putter,
        getter,
        puts,
        gets,
    })
}

/// The n-th answer has the number n, and the place n.
fn are_in_order(answers: &[(u64, u64)]) -> bool {
    answers.iter().enumerate().all(|(number, answer)| answer.0 == code(number as u64)
        && answer.1 == number as u64)
}

#[test]
fn three_threads_exchange_data_in_order(rt: HostRuntime) {
    let alloc = rt.alloc();
    let count = 3000;
    let Open {
        words,
        root,
        seat,
        putter,
        getter,
    } = open_pipe(alloc, 100_000).expect(&rt, "ample memory");
    let Came {
        seat,
        putter,
        getter,
        puts,
        gets,
    } = on_threads(&rt, alloc, &words, seat, putter, getter, count).expect(&rt, "ample memory");
    assert!(rt; puts.len() == 3000 && are_in_order(puts.as_slice()));
    assert!(rt; gets.len() == 3000 && are_in_order(gets.as_slice()));
    let last = close_pipe(alloc, words, root, seat, putter, getter).expect(&rt, "ample memory");
    assert_eq!(rt; (last.count, last.cells.len()), (count, 0));
}
