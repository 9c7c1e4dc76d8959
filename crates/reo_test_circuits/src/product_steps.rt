//! Steps that a person can check by hand: which are steps of the product, and which are not, each for one reason.
use crate::circuits::{document, net};
use reo_net::{Step, is_product_step};
use reo_value::{Num, Value};
use sqlite_items::Items;
use std::alloc::Global;

fn value(integer: i64) -> Option<Value> {
    Num::new(integer).map(Value::Int)
}

/// What the buffers hold: 0 stands for nothing.
fn state(alloc: Global, contents: &[i64]) -> Option<Vec<Option<Value>>> {
    let mut cells = Vec::new(alloc);
    for content in contents {
        let cell = if *content == 0 { None } else { value(*content) };
        cells.push(cell).ok()?;
    }
    Some(cells)
}

fn step(alloc: Global, names: &[(u32, i64)]) -> Option<Step> {
    let mut pairs = Vec::new(alloc);
    for (name, datum) in names {
        pairs.push((*name, value(*datum)?)).ok()?;
    }
    Some(Step {
        pairs: Items::from_vec(pairs),
    })
}

fn allows(
    alloc: Global,
    text: &str,
    old: &[i64],
    names: &[(u32, i64)],
    new: &[i64],
) -> Option<bool> {
    let document = document(alloc, text)?;
    let net = net(alloc, text)?.ok()?;
    let before = state(alloc, old)?;
    let after = state(alloc, new)?;
    let fired = step(alloc, names)?;
    let texts = document.texts();
    Some(is_product_step(&net, texts, before.as_slice(), &fired, after.as_slice()))
}

/// The names are `A!`, `B?`, `1.a` and `1.b`.
const BUFFER: &str = "in A\nfifo A B\nout B\n";

#[test]
fn a_buffer_is_filled_and_taken(rt: HostRuntime) {
    let alloc = rt.alloc();
    assert_eq!(rt;
        allows(alloc, BUFFER, &[0], &[(0, 7), (2, 7)], &[7]),
        Some(true)
    );
    assert_eq!(rt;
        allows(alloc, BUFFER, &[7], &[(1, 7), (3, 7)], &[0]),
        Some(true)
    );
}

#[test]
fn a_buffer_does_nothing_else(rt: HostRuntime) {
    let alloc = rt.alloc();
    for (old, names, new, why) in [
        (0, &[][..], 0, "no name"),
        (0, &[(0, 7)][..], 0, "an output left out"),
        (0, &[(0, 7), (2, 8)][..], 8, "another datum in"),
        (0, &[(1, 7), (3, 7)][..], 0, "an empty one taken"),
        (7, &[(0, 8), (2, 8)][..], 8, "a full one filled"),
        (7, &[(1, 8), (3, 8)][..], 0, "another datum out"),
        (7, &[(1, 7), (3, 7)][..], 7, "a datum kept"),
        (7, &[(0, 8), (1, 7), (2, 8), (3, 7)][..], 8, "both"),
        (0, &[(2, 7), (0, 7)][..], 7, "names out of order"),
        (0, &[(0, 7), (0, 7), (2, 7)][..], 7, "one twice"),
        (0, &[(0, 7), (2, 7), (4, 7)][..], 7, "no such name"),
    ] {
        assert_eq!(rt;
            allows(alloc, BUFFER, &[old], names, &[new]),
            Some(false),
            "{why}"
        );
    }
}

#[test]
fn a_state_has_one_place_for_each_buffer(rt: HostRuntime) {
    let alloc = rt.alloc();
    for (old, new) in [(&[][..], &[7][..]), (&[0, 0][..], &[7, 0][..])] {
        assert_eq!(rt;
            allows(alloc, BUFFER, old, &[(0, 7), (2, 7)], new),
            Some(false)
        );
    }
}

#[test]
fn a_node_serves_all_its_outputs(rt: HostRuntime) {
    let alloc = rt.alloc();
    let fork = "in A\nfifo A B\nfifo A C\n";
    let all = &[(0, 7), (1, 7), (3, 7)];
    assert_eq!(rt; allows(alloc, fork, &[0, 0], all, &[7, 7]), Some(true));
    let one = &[(0, 7), (1, 7)];
    assert_eq!(rt; allows(alloc, fork, &[0, 0], one, &[7, 0]), Some(false));
}

#[test]
fn a_node_takes_one_input(rt: HostRuntime) {
    let alloc = rt.alloc();
    let merge = "fifo A C\nfifo B C\nout C\n";
    let first = &[(0, 7), (2, 7)];
    assert_eq!(rt; allows(alloc, merge, &[7, 7], first, &[0, 7]), Some(true));
    let second = &[(0, 7), (4, 7)];
    assert_eq!(rt; allows(alloc, merge, &[7, 7], second, &[7, 0]), Some(true));
    let both = &[(0, 7), (2, 7), (4, 7)];
    assert_eq!(rt; allows(alloc, merge, &[7, 7], both, &[0, 0]), Some(false));
}

#[test]
fn two_nodes_fire_in_one_step_where_they_share_no_name(rt: HostRuntime) {
    let alloc = rt.alloc();
    let own = &[(0, 7), (1, 7)];
    assert_eq!(rt; allows(alloc, "fifo A A\n", &[7], own, &[7]), Some(false));
    let chain = "in A\nfifo A B\nfifo B C\nout C\n";
    let inner = &[(3, 7), (4, 7)];
    assert_eq!(rt; allows(alloc, chain, &[7, 0], inner, &[0, 7]), Some(true));
    let outer = &[(0, 8), (1, 7), (2, 8), (5, 7)];
    assert_eq!(rt; allows(alloc, chain, &[0, 7], outer, &[8, 0]), Some(true));
}

const SYNC: &str = "in A\nsync A B\nout B\n";

const LOSSY: &str = "in A\nlossy A B\nout B\n";

const DRAIN: &str = "in A\nin B\ndrain A B\n";

const FILTER: &str = "in A\nfilter A B x > 3\nout B\n";

const TRANSFORM: &str = "in A\ntransform A B + 1\nout B\n";

const LENGTH: &str = "in A\ntransform A B len\nout B\n";

/// A circuit, the data at its port at A, at its end a, at its end b and at its port at B, where they are not 0, and whether they are
/// those of a step.
const ROWS: &[(&str, [i64; 4], bool, &str)] = &[
    (SYNC, [7, 7, 7, 7], true, "a sync hands on"),
    (SYNC, [7, 7, 8, 8], false, "a sync with two data"),
    (SYNC, [7, 7, 0, 0], false, "a sync that loses"),
    (LOSSY, [7, 7, 7, 7], true, "a lossy one hands on"),
    (LOSSY, [7, 7, 0, 0], true, "a lossy one loses"),
    (LOSSY, [7, 7, 8, 8], false, "a lossy one with two data"),
    (LOSSY, [0, 0, 7, 7], false, "a loss with b firing"),
    (LOSSY, [7, 0, 0, 0], false, "an end a left out"),
    (DRAIN, [7, 7, 8, 8], true, "a drain takes any two data"),
    (DRAIN, [7, 7, 0, 0], false, "a drain that fires one end"),
    (FILTER, [7, 7, 7, 7], true, "a filter passes"),
    (FILTER, [3, 3, 0, 0], true, "a filter loses what fails it"),
    (FILTER, [3, 3, 3, 3], false, "a filter passes what fails it"),
    (FILTER, [7, 7, 0, 0], false, "a filter loses what meets it"),
    (FILTER, [7, 7, 8, 8], false, "a filter with two data"),
    (TRANSFORM, [7, 7, 8, 8], true, "a transform"),
    (TRANSFORM, [7, 7, 7, 7], false, "a transform with another"),
    (TRANSFORM, [7, 7, 0, 0], false, "a transform that loses"),
    (LENGTH, [7, 7, 1, 1], false, "no image"),
    (
        TRANSFORM,
        [4_611_686_018_427_387_903, 4_611_686_018_427_387_903, -4, -4],
        false,
        "an image out of range",
    ),
];

/// The names with their data, where there is one.
fn names(alloc: Global, data: [i64; 4]) -> Option<Vec<(u32, i64)>> {
    let mut names = Vec::new(alloc);
    for (name, datum) in [(0, data[0]), (1, data[3]), (2, data[1]), (3, data[2])] {
        if datum != 0 {
            names.push((name, datum)).ok()?;
        }
    }
    Some(names)
}

#[test]
fn each_kind_steps_in_a_circuit_as_its_automaton(rt: HostRuntime) {
    let alloc = rt.alloc();
    for (text, data, wanted, why) in ROWS {
        let names = names(alloc, *data).expect(&rt, "ample memory");
        let found = allows(alloc, text, &[], &names, &[]);
        assert_eq!(rt; found, Some(*wanted), "{why}");
    }
}
