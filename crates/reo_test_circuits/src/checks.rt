//! Which circuits the checks refuse, and why.
use crate::circuits::net;
use reo_net::CheckRefusal;
use std::alloc::{AllocError, Global};

/// Documents, each refused at the least node of two that there are, or by the first test of two.
const REFUSED: &[(&str, CheckRefusal)] = &[
    ("in A\nin B\nout B\nout A\n", CheckRefusal::PortTwice(0)),
    ("sync A A\nin B\nout B\n", CheckRefusal::PortTwice(1)),
    (
        "fifo A B\nfifo A C\nin C\nin B\n",
        CheckRefusal::MixedPort(1),
    ),
    ("drain A B\nout B\n", CheckRefusal::MixedPort(1)),
    ("drain A B\nout A\nout B\n", CheckRefusal::MixedPort(0)),
    ("sync A A\nfifo X B\nin B\n", CheckRefusal::MixedPort(2)),
    ("fifo X Y\nsync Y Y\nsync A A\n", CheckRefusal::SyncLoop(1)),
    ("lossy A B\nsync B A\n", CheckRefusal::SyncLoop(0)),
    (
        "filter A B is int\ntransform B C neg\nsync C A\n",
        CheckRefusal::SyncLoop(0),
    ),
    (
        "sync X A\nlossy A B\ntransform B C len\nfilter C A is text\n",
        CheckRefusal::SyncLoop(1),
    ),
];

const ACCEPTED: &[&str] = &[
    "",
    "in A\nin B\ndrain A B\n",
    "sync A B\nfifo B A\n",
    "sync A B\ndrain B A\n",
    "drain A A\n",
    "in A\nsync A B\nsync B C\nlossy A C\nout C\n",
];

#[test]
fn the_checks_name_the_first_fault_at_its_least_node(rt: HostRuntime) {
    for (text, refusal) in REFUSED {
        let checked = net(rt.alloc(), text).expect(&rt, "a document");
        assert_eq!(rt; checked.err(), Some(*refusal), "{text}");
    }
    for text in ACCEPTED {
        let checked = net(rt.alloc(), text).expect(&rt, "a document");
        assert!(rt; checked.is_ok(), "{text}");
    }
}

/// A line of channels, and at last one of this kind from its end to its start.
fn circle(alloc: Global, channels: u32, last: &str) -> Result<String, AllocError> {
    let mut text = String::new(alloc);
    for number in 1..channels {
        text.push_str(&format!(in alloc; "sync N{} N{}\n", number - 1, number)?)?;
    }
    text.push_str(&format!(in alloc; "{last} N{} N0\n", channels.saturating_sub(1))?)?;
    Ok(text)
}

#[test]
fn a_circle_of_all_channels(rt: HostRuntime) {
    let alloc = rt.alloc();
    for (channels, last, refusal) in [
        (512, "sync", Some(CheckRefusal::SyncLoop(0))),
        (512, "fifo", None),
        (512, "drain", None),
        (513, "sync", Some(CheckRefusal::TooManyChannels(513))),
    ] {
        let text = circle(alloc, channels, last).expect(&rt, "ample memory");
        let checked = net(alloc, &text).expect(&rt, "a document");
        assert_eq!(rt; checked.err(), refusal);
    }
}

#[test]
fn the_ports_are_counted(rt: HostRuntime) {
    let alloc = rt.alloc();
    for (ports, refusal) in [(128, None), (129, Some(CheckRefusal::TooManyPorts(129)))] {
        let mut text = String::new(alloc);
        for number in 0..ports {
            let line = format!(in alloc; "in N{number}\n").expect(&rt, "ample memory");
            text.push_str(&line).expect(&rt, "ample memory");
        }
        let checked = net(alloc, &text).expect(&rt, "a document");
        assert_eq!(rt; checked.err(), refusal);
    }
}
