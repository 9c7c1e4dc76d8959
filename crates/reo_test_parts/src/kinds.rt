//! Each transition of each kind of channel once, and for each a step that differs from it in one thing and is none.
use reo_guard::{Cmp, Fun, Guard};
use reo_net::Kind;
use reo_value::{Lexicon, Num, Value};

fn value(integer: i64) -> Option<Value> {
    Num::new(integer).map(Value::Int)
}

/// The kind of this number, with a guard that asks for more than 3 and a function that adds 1.
fn kind(number: usize) -> Option<Kind> {
    match number {
        0 => Some(Kind::Sync),
        1 => Some(Kind::Lossy),
        2 => Some(Kind::Drain),
        3 => Some(Kind::Fifo(None)),
        4 => Some(Kind::Filter(Guard::Compare(Cmp::Gt, value(3)?))),
        5 => Some(Kind::Transform(Fun::Add(Num::new(1)?))),
        _ => None,
    }
}

const SYNC: usize = 0;

const LOSSY: usize = 1;

const DRAIN: usize = 2;

const FIFO: usize = 3;

const FILTER: usize = 4;

const TRANSFORM: usize = 5;

/// A datum, or none where it is 0.
fn datum(integer: i64) -> Option<Value> {
    if integer == 0 { None } else { value(integer) }
}

type Row = (usize, i64, i64, i64, i64, bool, &'static str);

/// The kind, what it holds, what is at its ends a and b, what it holds then, and whether this is a transition.
const ROWS: &[Row] = &[
    (SYNC, 0, 7, 7, 0, true, "a sync hands on"),
    (SYNC, 0, 7, 8, 0, false, "a sync with two data"),
    (SYNC, 0, 7, 0, 0, false, "a sync that loses"),
    (SYNC, 0, 0, 7, 0, false, "a sync that invents"),
    (SYNC, 0, 7, 7, 7, false, "a sync that keeps a datum"),
    (LOSSY, 0, 7, 7, 0, true, "a lossy one hands on"),
    (LOSSY, 0, 7, 8, 0, false, "a lossy one with two data"),
    (LOSSY, 0, 7, 0, 0, true, "a lossy one loses"),
    (LOSSY, 0, 0, 7, 0, false, "a loss with b firing"),
    (DRAIN, 0, 7, 8, 0, true, "a drain takes any two data"),
    (DRAIN, 0, 7, 0, 0, false, "a drain that fires end a"),
    (DRAIN, 0, 0, 8, 0, false, "a drain that fires end b"),
    (FIFO, 0, 7, 0, 7, true, "a buffer is filled"),
    (FIFO, 0, 7, 0, 0, false, "a buffer that loses"),
    (FIFO, 0, 0, 7, 0, false, "an empty buffer is taken from"),
    (FIFO, 7, 0, 7, 0, true, "a buffer is taken from"),
    (FIFO, 7, 0, 8, 0, false, "a buffer gives another datum"),
    (FIFO, 7, 0, 7, 7, false, "a buffer keeps what is taken"),
    (FIFO, 7, 8, 0, 8, false, "a full buffer is filled"),
    (FIFO, 7, 8, 7, 8, false, "a buffer fires both ends"),
    (FILTER, 0, 7, 7, 0, true, "a filter passes"),
    (FILTER, 0, 7, 8, 0, false, "a filter passes another datum"),
    (FILTER, 0, 7, 0, 0, false, "a filter loses what meets it"),
    (FILTER, 0, 3, 0, 0, true, "a filter loses what fails it"),
    (FILTER, 0, 3, 3, 0, false, "a filter passes what fails it"),
    (TRANSFORM, 0, 7, 8, 0, true, "a transform"),
    (
        TRANSFORM,
        0,
        7,
        7,
        0,
        false,
        "a transform with another value",
    ),
    (TRANSFORM, 0, 7, 0, 0, false, "a transform that loses"),
];

#[test]
fn each_kind_makes_its_transitions_alone(rt: HostRuntime) {
    let texts = Lexicon::new(rt.alloc());
    for (number, held, a, b, new, wanted, why) in ROWS {
        let allowed = kind(*number).map(|kind| kind.allows(
            &texts,
            datum(*held),
            datum(*a),
            datum(*b),
            datum(*new),
        ));
        assert_eq!(rt; allowed, Some(*wanted), "{why}");
    }
}

#[test]
fn a_transform_does_nothing_where_its_function_yields_nothing(rt: HostRuntime) {
    let texts = Lexicon::new(rt.alloc());
    let length = Kind::Transform(Fun::Len);
    assert!(rt; !length.allows(&texts, None, value(7), value(1), None));
    assert!(rt; !length.allows(&texts, None, value(7), None, None));
    assert!(rt; length.allows(&texts, None, Some(Value::Sym(0)), value(-0), None));
}

#[test]
fn a_copy_is_the_kind(rt: HostRuntime) {
    let texts = Lexicon::new(rt.alloc());
    for (number, held, a, b, new, wanted, why) in ROWS {
        let copy = kind(*number).and_then(|kind| kind.try_clone(rt.alloc()).ok());
        let allowed = copy.map(|kind| kind.allows(
            &texts,
            datum(*held),
            datum(*a),
            datum(*b),
            datum(*new),
        ));
        assert_eq!(rt; allowed, Some(*wanted), "{why}");
    }
}
