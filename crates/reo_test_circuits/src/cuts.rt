//! The templates and the cut of small circuits.
use crate::circuits::{cut, net};
use reo_automata::{Rule, Template, template_of};
use reo_cut::CellCut;
use reo_net::Net;
use std::alloc::Global;

const ROUTER: &str =
    "in A\nlossy A F\nlossy A G\nsync F B\nsync F M\nsync G C\nsync G M\ndrain A M\nout B\nout C\n";

#[test]
fn the_exclusive_router_is_one_region(rt: HostRuntime) {
    let cut = cut(rt.alloc(), ROUTER).expect(&rt, "a circuit");
    assert_eq!(rt; cut.regions, 1);
    assert_eq!(rt; cut.port_region.as_slice(), [0, 0, 0].as_slice());
    assert!(rt; cut.cells.is_empty());
}

fn template(alloc: Global, net: &Net, automaton: u32) -> Option<Template> {
    let channels = net.channels().len() as u32;
    if automaton < channels + net.nodes() {
        template_of(alloc, net, automaton).ok()
    } else {
        None
    }
}

#[test]
fn each_node_between_buffers_is_a_region(rt: HostRuntime) {
    let alloc = rt.alloc();
    let ring = "fifo X Y full 1\nfifo Y X\nfifo G H\nout H\n";
    let cut = cut(alloc, ring).expect(&rt, "ample memory");
    assert_eq!(rt; cut.regions, 4);
    let regions = [None, None, None, Some(0), Some(1), Some(2), Some(3)];
    assert_eq!(rt; cut.region_of.as_slice(), regions.as_slice());
    let cells = [(0, 0, 1), (1, 1, 0), (2, 2, 3)].map(|(channel, filler, taker)| CellCut {
        channel,
        filler,
        taker,
    });
    assert_eq!(rt; cut.cells.as_slice(), cells.as_slice());
    assert_eq!(rt; cut.port_region.as_slice(), [3].as_slice());
}

/// The template's names, and each link with its rule.
fn is_template(template: &Template, names: &[u32], links: &[(&[u32], Rule)]) -> bool {
    if template.names.as_slice() != names || template.links.len() != links.len() {
        return false;
    }
    for (link, (fires, rule)) in template.links.as_slice().iter().zip(links) {
        if link.fires.as_slice() != *fires || link.rule != *rule {
            return false;
        }
    }
    true
}

#[test]
fn a_link_for_each_transition(rt: HostRuntime) {
    let alloc = rt.alloc();
    let merge = "in A\nfifo A B\nfifo C B\nout B\n";
    let router = net(alloc, ROUTER)
        .expect(&rt, "a document")
        .expect(&rt, "accepted");
    let net = net(alloc, merge)
        .expect(&rt, "a document")
        .expect(&rt, "accepted");
    for (net, automaton, names, links) in [
        (
            &router,
            11,
            &[10, 14, 16][..],
            &[(&[10, 16][..], Rule::Same), (&[14, 16][..], Rule::Same)][..],
        ),
        (
            &router,
            0,
            &[3, 4][..],
            &[(&[3, 4][..], Rule::Same), (&[3][..], Rule::Free)][..],
        ),
        (
            &net,
            0,
            &[2, 3][..],
            &[(&[2][..], Rule::Store), (&[3][..], Rule::Emit)][..],
        ),
        (&net, 2, &[0, 2][..], &[(&[0, 2][..], Rule::Same)][..]),
        (
            &net,
            3,
            &[1, 3, 5][..],
            &[(&[1, 3][..], Rule::Same), (&[1, 5][..], Rule::Same)][..],
        ),
        (&net, 4, &[4][..], &[][..]),
    ] {
        let template = template(alloc, net, automaton).expect(&rt, "ample memory");
        assert!(rt; is_template(&template, names, links), "at {automaton}");
    }
}
