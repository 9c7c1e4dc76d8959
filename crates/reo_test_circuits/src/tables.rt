//! The tables of the regions of small circuits, and of some that stand at the limits.
use crate::circuits::table;
use reo_product::{ProductRefusal, RegionTable};
use std::alloc::{AllocError, Global};

const ROUTER: &str =
    "in A\nlossy A F\nlossy A G\nsync F B\nsync F M\nsync G C\nsync G M\ndrain A M\nout B\nout C\n";

const ALTERNATOR: &str = "in A\nin B\ndrain A B\nsync A C\nfifo B C\nout C\n";

const LOSSY_INTO_FULL_FIFO: &str = "in A\nlossy A B\nfifo B C\nout C\n";

/// Growth, and the names of each firing.
fn told(alloc: Global, table: &RegionTable) -> Result<String, AllocError> {
    let mut text = format!(in alloc; "{}:", table.growth)?;
    for firing in table.firings.as_slice() {
        for name in firing.names.as_slice() {
            text.push_str(&format!(in alloc; " {name}")?)?;
        }
        text.push_str(";")?;
    }
    Ok(text)
}

#[test]
fn regions_have_the_tables_worked_by_hand(rt: HostRuntime) {
    let alloc = rt.alloc();
    for (text, region, wanted) in [
        (
            ROUTER,
            0,
            "54: 0 1 3 4 5 7 8 9 10 15 16; 0 2 3 5 6 11 12 13 14 15 16;",
        ),
        (ALTERNATOR, 0, "11: 0 1 2 3 4 5 6 7; 2 8;"),
        (LOSSY_INTO_FULL_FIFO, 0, "7: 0 2 3 4; 0 2;"),
        (LOSSY_INTO_FULL_FIFO, 1, "1: 1 5;"),
    ] {
        let table = table(alloc, text, region)
            .expect(&rt, "a circuit")
            .expect(&rt, "a table");
        let told = told(alloc, &table).expect(&rt, "ample memory");
        assert_eq!(rt; told.as_str(), wanted);
    }
}

/// A put port at a node, LossySyncs from it to get ports, and one LossySync more, where that is wanted.
fn fan(alloc: Global, width: u32, more: bool) -> Result<String, AllocError> {
    let mut text = String::from_str(alloc, "in A\n")?;
    for number in 0..width {
        text.push_str(&format!(in alloc; "lossy A B{number}\nout B{number}\n")?)?;
    }
    if more {
        text.push_str("in X\nlossy X B0\n")?;
    }
    Ok(text)
}

/// LossySyncs from put ports into one node.
fn merger(alloc: Global, width: u32) -> Result<String, AllocError> {
    let mut text = String::new(alloc);
    for number in 0..width {
        text.push_str(&format!(in alloc; "in A{number}\nlossy A{number} M\n")?)?;
    }
    text.push_str("out M\n")?;
    Ok(text)
}

/// How many vertices and firings region 0 has, and how many names the first firing and the last.
fn sizes(alloc: Global, text: &str) -> Option<Result<(u32, usize, usize, usize), ProductRefusal>> {
    match table(alloc, text, 0)? {
        Ok(table) => {
            let firings = table.firings.as_slice();
            let first = firings.first()?.names.len();
            let last = firings.last()?.names.len();
            Some(Ok((table.growth, firings.len(), first, last)))
        }
        Err(why) => Some(Err(why)),
    }
}

#[test]
fn firings_that_share_no_name_are_not_joined(rt: HostRuntime) {
    let merger = merger(rt.alloc(), 12).expect(&rt, "ample memory");
    assert_eq!(rt; sizes(rt.alloc(), &merger), Some(Ok((84, 24, 4, 2))));
}

#[test]
fn tables_end_at_their_limits(rt: HostRuntime) {
    let alloc = rt.alloc();
    for (width, more, wanted) in [
        (12, false, Ok((32_825, 4_096, 37, 13))),
        (13, false, Err(ProductRefusal::TooLarge(0, 65_537))),
        (12, true, Err(ProductRefusal::TooLarge(0, 4_098))),
    ] {
        let fan = fan(alloc, width, more).expect(&rt, "ample memory");
        assert_eq!(rt; sizes(alloc, &fan), Some(wanted));
    }
}
