//! The lines of the answered calls.
ghost use Rattle.std.specs.Prelude.{◌≡◌, ◌++◌, flat_map, codes, OnOk};
ghost use Rattle.reo_trace.specs.Buffer.{HasTaken};
ghost use Rattle.reo_trace.specs.Calls.{IsFront};
ghost use Rattle.reo_trace.specs.Fronts.{AreQuotes};
ghost use Rattle.reo_trace.specs.ReportText.{op_text, call_line, call_lines};

use crate::Called;
use crate::lines::{append, bytes_at, push_bytes, push_datum, push_node};
use crate::numbers::push_place;
use crate::parts::Parts;
use crate::shown::Shown;
use reo_net::Net;
use reo_value::{Lexicon, Op};
use sqlite_items::Items;
use std::alloc::{AllocError, Global};

/// What stands before the value in a call's line: mostly a component's calls have one.
#[derive(Drop)]
pub(crate) struct CallFront {
    puts: bool,
    port: u32,
    bytes: Vec<u8>,
}

/// Makes the front of a line, of a put or of a get at a port.
fn make(
    front: &mut CallFront,
    net: &Net,
    nodes: &Lexicon,
    person: &[u8],
    puts: bool,
    port: u32,
) -> Result<(), AllocError>
    ensures front { OnOk result (IsFront net.now nodes.now person.now front.new) }
    ensures puts { OnOk result (front.new.puts ≡ puts) }
    ensures port { OnOk result (front.new.port ≡ port) }
{
    front.puts = puts;
    front.port = port;
    front.bytes.clear();
    push_bytes(&mut front.bytes, b"call ")?;
    push_bytes(&mut front.bytes, person)?;
    if puts {
        push_bytes(&mut front.bytes, b" put ")?;
    } else {
        push_bytes(&mut front.bytes, b" get ")?;
    }
    push_node(&mut front.bytes, nodes, net.ports(), port)?;
    push_bytes(&mut front.bytes, b" ")
}

/// Makes the front of a line, where it is another one.
fn turn_to(
    front: &mut CallFront,
    net: &Net,
    nodes: &Lexicon,
    person: &[u8],
    puts: bool,
    port: u32,
) -> Result<(), AllocError>
    requires { IsFront net.now nodes.now person.now front.old }
    ensures front { OnOk result (IsFront net.now nodes.now person.now front.new) }
    ensures puts { OnOk result (front.new.puts ≡ puts) }
    ensures port { OnOk result (front.new.port ≡ port) }
{
    if front.puts == puts && front.port == port {
        return Ok(());
    }
    make(front, net, nodes, person, puts, port)
}

/// Makes the front of an operation's line, where it is another one.
fn turn_to_op(
    front: &mut CallFront,
    net: &Net,
    nodes: &Lexicon,
    person: &[u8],
    op: Op,
) -> Result<(), AllocError>
    requires { IsFront net.now nodes.now person.now front.old }
    ensures front { OnOk result (IsFront net.now nodes.now person.now front.new) }
    ensures bytes { OnOk result (front.new.bytes.items ≡ codes "call " ++ person.now ++ op_text net.now nodes.now op ++ codes " ") }
{
    match op {
        Op::Put(port, _) => turn_to(front, net, nodes, person, true, port),
        Op::Get(port) => turn_to(front, net, nodes, person, false, port),
    }
}

fn push_call(
    buffer: &mut Vec<u8>,
    net: &Net,
    nodes: &Lexicon,
    texts: &Lexicon,
    quotes: &Parts,
    shown: &mut Shown,
    person: &[u8],
    front: &mut CallFront,
    call: &Called,
) -> Result<(), AllocError>
    requires front { IsFront net.now nodes.now person.now front.old }
    requires quotes { AreQuotes texts.now quotes.now }
    ensures front { OnOk result (IsFront net.now nodes.now person.now front.new) }
    ensures line { OnOk result (HasTaken buffer.old buffer.new (call_line net.now nodes.now texts.now person.now call.now)) }
{
    turn_to_op(front, net, nodes, person, call.op)?;
    append(buffer, front.bytes.as_slice())?;
    push_datum(buffer, texts, quotes, shown, call.value)?;
    push_place(buffer, call.number)
}

fn push_own_calls(
    buffer: &mut Vec<u8>,
    net: &Net,
    nodes: &Lexicon,
    texts: &Lexicon,
    quotes: &Parts,
    shown: &mut Shown,
    front: &mut CallFront,
    person: &[u8],
    own: &[Called],
) -> Result<(), AllocError>
    requires { AreQuotes texts.now quotes.now }
    ensures { OnOk result (HasTaken buffer.old buffer.new (flat_map (call_line net.now nodes.now texts.now person.now) own.now)) }
{
    make(front, net, nodes, person, true, 0)?;
    for call in own {
        push_call(
            buffer, net, nodes, texts, quotes, shown, person, front, call,
        )?;
    }
    Ok(())
}

/// Appends the lines of all calls, those of each component in turn.
pub(crate) fn push_calls(
    buffer: &mut Vec<u8>,
    alloc: Global,
    net: &Net,
    nodes: &Lexicon,
    texts: &Lexicon,
    quotes: &Parts,
    shown: &mut Shown,
    people: &Lexicon,
    calls: &[Items<Called>],
) -> Result<(), AllocError>
    requires { AreQuotes texts.now quotes.now }
    ensures { OnOk result (HasTaken buffer.old buffer.new (call_lines net.now nodes.now texts.now people.now 0 calls.now)) }
{
    let mut front = CallFront {
        puts: true,
        port: 0,
        bytes: Vec::new(alloc),
    };
    for (number, own) in calls.iter().enumerate() {
        let person = bytes_at(people, number);
        let own = own.as_slice();
        push_own_calls(
            buffer, net, nodes, texts, quotes, shown, &mut front, person, own,
        )?;
    }
    Ok(())
}
