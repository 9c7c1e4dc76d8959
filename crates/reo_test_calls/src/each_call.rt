//! Public calls below the top one, with values worked by hand.
use reo_base::{Gate, MemorySink, OpenGate, StdSink, StdSource, read_all, write_whole};
use reo_document::read_document;
use reo_net::{Step, channel_allows, datum_at, is_step, node_allows};
use reo_tool::prepare_document;
use reo_trace::{Ending, Report, write_report};
use reo_value::{LexRefusal, Lexicon, Num, Op, Value, value_of, word_of};
use sqlite_items::Items;
use std::io::Cursor;

#[test]
fn integers_have_their_codes(rt: HostRuntime) {
    for (integer, code) in [
        (0, 9_223_372_036_854_775_809),
        (-4_611_686_018_427_387_904, 1),
        (4_611_686_018_427_387_903, 18_446_744_073_709_551_615),
    ] {
        let value = Value::Int(Num::new(integer).expect(&rt, "in range"));
        assert_eq!(rt; word_of(value), code, "of {integer}");
        assert_eq!(rt; value_of(code), Num::new(integer).map(Value::Int));
    }
    assert_eq!(rt; Num::new(7).expect(&rt, "in range").get(), 7);
    assert_eq!(rt; Num::new(4_611_686_018_427_387_904), None);
    assert_eq!(rt; Num::new(-4_611_686_018_427_387_905), None);
}

#[test]
fn a_lexicon_numbers_its_texts(rt: HostRuntime) {
    let alloc = rt.alloc();
    let mut lexicon = Lexicon::new(alloc);
    assert!(rt; lexicon.is_empty());
    assert_eq!(rt; lexicon.add(alloc, "go"), Ok(0));
    assert_eq!(rt; lexicon.add(alloc, "stop"), Ok(1));
    assert_eq!(rt; lexicon.add(alloc, "go"), Ok(0));
    assert_eq!(rt; lexicon.len(), 2);
    assert_eq!(rt; lexicon.text(1), Some("stop"));
    assert_eq!(rt; lexicon.find("stop"), Some(1));
    assert_eq!(rt; lexicon.find("halt"), None);
    let long = "0123456789abcdef"
        .repeat(alloc, 16)
        .expect(&rt, "ample memory");
    assert_eq!(rt; lexicon.add(alloc, &long), Err(LexRefusal::TooLong));
    assert_eq!(rt; lexicon.len(), 2);
    assert_eq!(rt; lexicon.add(alloc, ""), Ok(2));
    assert_eq!(rt; lexicon.text(2), Some(""));
}

#[test]
fn bytes_pass_through_the_standard_streams(rt: HostRuntime) {
    let alloc = rt.alloc();
    let mut source = StdSource::new(Cursor::new(b"in A\n"));
    let bytes = read_all(alloc, &mut source, 5).expect(&rt, "ample memory");
    assert_eq!(rt; bytes.as_slice(), "in A\n".as_bytes());
    let mut sink = StdSink::new(Vec::new(alloc));
    assert_eq!(rt; write_whole(&mut sink, bytes.as_slice()), Ok(()));
}

#[test]
fn many_bytes_pass_through_the_standard_streams(rt: HostRuntime) {
    let alloc = rt.alloc();
    let text = "0123456789".repeat(alloc, 900).expect(&rt, "ample memory");
    let mut source = StdSource::new(Cursor::new(text.as_bytes()));
    let bytes = read_all(alloc, &mut source, 9000).expect(&rt, "ample memory");
    let mut written = Vec::new(alloc);
    let mut sink = StdSink::new(&mut written);
    assert_eq!(rt; write_whole(&mut sink, bytes.as_slice()), Ok(()));
    assert_eq!(rt; written.as_slice(), text.as_bytes());
}

#[test]
fn an_open_gate_holds_nobody(_rt: HostRuntime) {
    OpenGate.pass(0, 0);
}

#[test]
fn a_document_is_read_checked_and_told(rt: HostRuntime) {
    let alloc = rt.alloc();
    let document = read_document(alloc, b"in A\nfifo A B full 7\ncomponent P\nput A -5\n").expect(
        &rt,
        "ample memory",
    );
    assert_eq!(rt; document.lines().len(), 2);
    assert_eq!(rt; document.nodes().text(1), Some("B"));
    assert!(rt; document.texts().is_empty());
    assert_eq!(rt; document.people().text(0), Some("P"));
    let minus_five = Value::Int(Num::new(-5).expect(&rt, "in range"));
    let script = document.scripts().first().expect(&rt, "a script");
    assert_eq!(rt; script.as_slice(), [Op::Put(0, minus_five)].as_slice());
    let prepared = prepare_document(alloc, &document).expect(&rt, "ample memory");
    let net = prepared.net;
    assert_eq!(rt; (net.nodes(), net.texts(), net.names()), (2, 0, 3));
    assert_eq!(rt; (net.channels().len(), net.ports().len()), (1, 1));
    let fill = Step {
        pairs: Items::from_slice(alloc, &[(0, minus_five), (1, minus_five)]).expect(
            &rt,
            "ample memory",
        ),
    };
    assert_eq!(rt; datum_at(&fill, 1), Some(minus_five));
    assert!(rt; is_step(&net, &fill) && node_allows(&net, 0, &fill));
    if !net.channels().is_empty() {
        assert!(rt;
            channel_allows(
                &net,
                document.texts(),
                0,
                &[None],
                &fill,
                &[Some(minus_five)]
            )
        );
    }
    let report = Report {
        steps: Items::new(alloc),
        calls: Items::new(alloc),
        ending: Ending::Stuck,
    };
    let mut out = MemorySink::new(alloc, 64, 3, Vec::new(alloc)).expect(&rt, "ample memory");
    write_report(
        alloc,
        &mut out,
        &net,
        document.nodes(),
        document.texts(),
        document.people(),
        &report,
    )
    .expect(&rt, "ample memory");
    assert_eq!(rt; out.bytes(), "end stuck\n".as_bytes());
}
