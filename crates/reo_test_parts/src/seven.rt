//! A decider for tests: region 0 takes 7 from cell 0 and gives it at get port 0.
ghost use Rattle.std.specs.Prelude.{◌≡◌, pos, nat_eq, IfOk};
ghost use Rattle.std.specs.Map.{lookup};
ghost use Rattle.reo_value.specs.declared.value.Value.TheVariants.{Int};
ghost use Rattle.reo_test_parts.specs.Seven.{SevenAllows, seven_choice, seven_chooses, is_seven, is_offered, is_ready, word_pairs, one_cell};

use reo_fabric::{CellSpec, Choice, Decider, Fabric, PlainEngine, PortSpec, Reading, Room};
use reo_value::{Num, Value, Way};
use sqlite_items::Items;
use std::alloc::{AllocError, Global};

const WORD: u64 = 9_223_372_036_854_775_823;

#[derive(Drop)]
pub(crate) struct TakesSeven;

impl Decider for TakesSeven {
    ghost allows = { λ _ region reading entry. SevenAllows region reading entry };

    ghost first_choice = { λ _ region reading. seven_choice region reading };

    ghost chooses = { λ _ region reading. seven_chooses region reading };

    fn choose(&self, region: u32, reading: &Reading) -> Option<Choice> {
        if region == 0 && ready(reading) {
            Some(Choice(0))
        } else {
            None
        }
    }

    fn entry_into(&self, choice: Choice, _reading: &Reading, room: &mut Room) {
        room.begin(choice.0);
        room.take(0, value_seven());
        room.get(0, value_seven());
    }
}

fn ready(reading: &Reading) -> bool
    ensures { result ≡ is_ready reading.now }
{
    is_word(word_of_cell(reading.cells.as_slice(), 0))
        && is_open(words_of_port(reading.ports.as_slice(), 0))
}

fn words_of_port(words: &[(u32, u64, u64)], port: u32) -> Option<(u64, u64)>
    ensures { result ≡ lookup (nat_eq port) (word_pairs words.now) }
{
    for word in words {
        if word.0 == port {
            return Some((word.1, word.2));
        }
    }
    None
}

fn is_open(words: Option<(u64, u64)>) -> bool
    ensures { result ≡ is_offered words }
{
    match words {
        Some((state, _)) => state == 1,
        None => false,
    }
}

fn word_of_cell(words: &[(u32, u64)], cell: u32) -> Option<u64>
    ensures { result ≡ lookup (nat_eq cell) words.now }
{
    for word in words {
        if word.0 == cell {
            return Some(word.1);
        }
    }
    None
}

fn is_word(word: Option<u64>) -> bool
    ensures { result ≡ is_seven word }
{
    match word {
        Some(word) => word == WORD,
        None => false,
    }
}

pub(crate) fn value_seven() -> Value
    ensures { result ≡ Int (pos 7) }
{
    let Some(number) = Num::new(7) else {
        unreachable!();
    };
    Value::Int(number)
}

/// One cell that is full of 7, and a get port.
fn one_cell_fabric(alloc: Global) -> Result<Fabric, AllocError>
    ensures { IfOk result (λ fabric. fabric ≡ one_cell) }
{
    let cell = CellSpec {
        filler: 0,
        taker: 0,
        first: Some(value_seven()),
    };
    let port = PortSpec {
        way: Way::Get,
        region: 0,
        owner: None,
    };
    Ok(Fabric {
        regions: 1,
        parties: 0,
        cells: Items::from_slice(alloc, &[cell])?,
        ports: Items::from_slice(alloc, &[port])?,
    })
}

#[test]
fn a_cell_is_emptied_once(rt: HostRuntime) {
    let alloc = rt.alloc();
    let fabric = one_cell_fabric(alloc).expect(&rt, "ample memory");
    let mut engine = PlainEngine::start(alloc, fabric, &TakesSeven).expect(&rt, "ample memory");
    assert_eq!(rt; engine.cells(), [Some(value_seven())].as_slice());
    assert!(rt; engine.last().is_none());
    assert_eq!(rt; engine.step(0), None);
    engine.post(0, None);
    assert_eq!(rt; engine.step(0), Some(0));
    assert_eq!(rt; engine.cells(), [None].as_slice());
    let last = engine.last().expect(&rt, "an entry");
    assert_eq!(rt; (last.region(), last.choice()), (0, 0));
    assert_eq!(rt; last.takes(), [(0, value_seven())].as_slice());
    assert_eq!(rt; last.gets(), [(0, value_seven())].as_slice());
    assert!(rt; last.fills().is_empty() && last.puts().is_empty());
    assert_eq!(rt; engine.answer(0), Some((value_seven(), 0)));
    assert_eq!(rt; engine.answer(0), None);
}
