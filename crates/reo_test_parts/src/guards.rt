//! Which data meet a guard, and what a function yields at them.
use reo_guard::{Cmp, Fun, Guard, apply, holds};
use reo_value::{Lexicon, Num, Value};
use sqlite_items::{Boxed, Items};
use std::alloc::Global;

const GO: Value = Value::Sym(0);

const STOP: Value = Value::Sym(1);

/// A text number that no list of these tests has.
const ABSENT: Value = Value::Sym(9);

/// The texts `go` and `stop`.
fn texts(alloc: Global) -> Option<Lexicon> {
    let mut texts = Lexicon::new(alloc);
    texts.add(alloc, "go").ok()?;
    texts.add(alloc, "stop").ok()?;
    Some(texts)
}

#[test]
fn guards_hold_of_some_data(rt: HostRuntime) {
    let alloc = rt.alloc();
    let texts = texts(alloc).expect(&rt, "ample memory");
    let five = Num::new(5).expect(&rt, "in range");
    let minus_five = Num::new(-5).expect(&rt, "in range");
    let data = [Value::Int(five), Value::Int(minus_five), GO, STOP];
    let an_integer = Boxed::new(alloc, Guard::IsInt).expect(&rt, "ample memory");
    for (guard, expected) in [
        (
            Guard::Compare(Cmp::Eq, Value::Int(five)),
            [true, false, false, false],
        ),
        (
            Guard::Compare(Cmp::Ne, Value::Int(five)),
            [false, true, true, true],
        ),
        (
            Guard::Compare(Cmp::Lt, Value::Int(five)),
            [false, true, false, false],
        ),
        (Guard::Compare(Cmp::Ge, GO), [false, false, true, true]),
        (Guard::Mod(3, 1), [false, true, false, false]),
        (Guard::Mod(0, 0), [false, false, false, false]),
        (Guard::LenAtMost(2), [false, false, true, false]),
        (Guard::Starts(0), [false, false, true, false]),
        (Guard::Not(an_integer), [false, false, true, true]),
    ] {
        for k in 0..4 {
            assert_eq!(rt; holds(&guard, data[k], &texts), expected[k]);
        }
    }
}

#[test]
fn guards_are_joined_and_look_at_texts_that_are_there(rt: HostRuntime) {
    let alloc = rt.alloc();
    let texts = texts(alloc).expect(&rt, "ample memory");
    let short = Boxed::new(alloc, Guard::LenAtMost(2)).expect(&rt, "ample memory");
    let text = Boxed::new(alloc, Guard::IsText).expect(&rt, "ample memory");
    let both = Guard::And(text, short);
    assert!(rt; holds(&both, GO, &texts) && !holds(&both, STOP, &texts));
    let stop = Boxed::new(alloc, Guard::Compare(Cmp::Gt, GO)).expect(&rt, "ample memory");
    let inner = Boxed::new(alloc, both).expect(&rt, "ample memory");
    let either = Guard::Or(inner, stop);
    assert!(rt; holds(&either, GO, &texts) && holds(&either, STOP, &texts));
    assert!(rt; holds(&Guard::Compare(Cmp::Le, GO), ABSENT, &texts));
    assert!(rt; !holds(&Guard::Compare(Cmp::Eq, GO), ABSENT, &texts));
    assert!(rt; holds(&Guard::LenAtMost(0), ABSENT, &texts));
}

#[test]
fn functions_yield_what_is_in_range(rt: HostRuntime) {
    let alloc = rt.alloc();
    let texts = texts(alloc).expect(&rt, "ample memory");
    let least = Num::new(-(1 << 62)).expect(&rt, "in range");
    let two = Num::new(2).expect(&rt, "in range");
    let four = Num::new(4).expect(&rt, "in range");
    assert_eq!(rt;
        apply(&Fun::Add(two), Value::Int(two), &texts),
        Some(Value::Int(four))
    );
    assert_eq!(rt;
        apply(&Fun::Mul(two), Value::Int(two), &texts),
        Some(Value::Int(four))
    );
    assert_eq!(rt; apply(&Fun::Sub(two), Value::Int(least), &texts), None);
    assert_eq!(rt; apply(&Fun::Neg, Value::Int(least), &texts), None);
    assert_eq!(rt; apply(&Fun::Neg, GO, &texts), None);
    assert_eq!(rt; apply(&Fun::Len, STOP, &texts), Some(Value::Int(four)));
    let pairs = Items::from_slice(alloc, &[(GO, STOP), (GO, GO)]).expect(&rt, "ample memory");
    let map = Fun::Map(pairs);
    assert_eq!(rt; apply(&map, GO, &texts), Some(STOP));
    assert_eq!(rt; apply(&map, STOP, &texts), None);
}
