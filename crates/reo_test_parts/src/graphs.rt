//! Closures of tables, and the least vertex on a loop, with values worked by hand.
use reo_graph::{closed, laws, least_on_loop};

#[test]
fn the_least_vertex_on_a_loop_is_found(rt: HostRuntime) {
    let alloc = rt.alloc();
    for (edges, least) in [
        ([].as_slice(), None),
        ([(7, 7)].as_slice(), Some(7)),
        ([(3, 2), (2, 1), (1, 0)].as_slice(), None),
        ([(0, 1), (0, 1), (0, 2), (1, 3), (2, 3)].as_slice(), None),
        ([(0, 9), (9, 5), (5, 9), (5, 1)].as_slice(), Some(5)),
        (
            [(8, 9), (9, 8), (4, 6), (6, 5), (5, 4), (4, 8)].as_slice(),
            Some(4),
        ),
        (
            [(16_777_215, 4_294_967_295), (4_294_967_295, 16_777_215)].as_slice(),
            Some(16_777_215),
        ),
    ] {
        assert_eq!(rt; least_on_loop(alloc, edges), Ok(least), "of {edges:?}");
    }
}

#[test]
fn many_edges_without_a_loop_and_with_one(rt: HostRuntime) {
    let alloc = rt.alloc();
    let mut edges = Vec::new(alloc);
    for number in 0..511 {
        edges
            .push((600 - number, 599 - number))
            .expect(&rt, "ample memory");
    }
    assert_eq!(rt; least_on_loop(alloc, edges.as_slice()), Ok(None));
    edges.push((89, 600)).expect(&rt, "ample memory");
    assert_eq!(rt; least_on_loop(alloc, edges.as_slice()), Ok(Some(89)));
}

#[test]
fn a_table_is_closed(rt: HostRuntime) {
    let alloc = rt.alloc();
    laws::closure_decides_paths();
    laws::ranks_rise_along_edges();
    let mut table = Vec::new(alloc);
    for marks in [
        [false, true, false],
        [false, false, true],
        [false, false, false],
    ] {
        let row = marks.to_vec(alloc).expect(&rt, "ample memory");
        table.push(row).expect(&rt, "ample memory");
    }
    let closure = closed(alloc, table).expect(&rt, "ample memory");
    for (number, marks) in [
        [false, true, true],
        [false, false, true],
        [false, false, false],
    ]
    .iter()
    .enumerate()
    {
        let row = closure.get(number).expect(&rt, "a row");
        assert_eq!(rt; row.as_slice(), marks.as_slice());
    }
}
