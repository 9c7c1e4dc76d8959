//! Which texts are documents, and why and where the others are refused.
use reo_document::{TextRefusal, read_document};
use std::alloc::Global;

fn refusal_of(alloc: Global, text: &[u8]) -> Option<TextRefusal> {
    if text.len() > 8_388_608 {
        return Some(TextRefusal::NoMemory);
    }
    match read_document(alloc, text) {
        Ok(_) => None,
        Err(refusal) => Some(refusal),
    }
}

fn syntax(line: u32, column: u32) -> Option<TextRefusal> {
    Some(TextRefusal::Syntax(line, column))
}

/// Where a text goes wrong, by line and column; at line 0 where it is a document.
const SYNTAX: [(&str, u32, u32); 68] = [
    // Ends of lines, blanks, comments.
    ("", 0, 0),
    ("\n", 0, 0),
    ("in A\n", 0, 0),
    ("in A", 0, 0),
    ("in A\r\n", 0, 0),
    ("in A\r", 0, 0),
    ("in A\r\r\n", 1, 5),
    ("in\r A\n", 1, 3),
    ("in\tA\n", 0, 0),
    ("  in  A \n", 0, 0),
    ("in A # here\n", 0, 0),
    ("# here\r too\nin A\n", 0, 0),
    ("in A\n\nout B\n", 0, 0),
    // Lines that end too early.
    ("in\n", 1, 3),
    ("in A\nfifo A", 2, 7),
    ("sync A B\n", 0, 0),
    ("sync A\n", 1, 7),
    ("fifo A\n", 1, 7),
    ("fifo A B full\n", 1, 14),
    ("filter A B\n", 1, 11),
    ("filter A B x mod 5 =\n", 1, 21),
    ("transform A B map {\n", 1, 20),
    // Tokens with which no line goes on.
    ("fifo A A\n", 0, 0),
    ("fifo A B empty 1\n", 1, 10),
    ("fifo A B full 1 2\n", 1, 17),
    ("inn A\n", 1, 1),
    ("in 1\n", 1, 4),
    ("in \"A\"\n", 1, 4),
    ("sync A B C\n", 1, 10),
    ("filter A B x mod 5 < 7\n", 1, 20),
    ("filter A B len < 7\n", 1, 16),
    ("filter A B (x = 1\n", 1, 18),
    ("filter A B x = 1)\n", 1, 17),
    ("filter A B or\n", 1, 12),
    ("transform A B map { }\n", 0, 0),
    ("transform A B map { 1 -> 2 }\n", 0, 0),
    ("transform A B map { 1 -> 2, }\n", 1, 29),
    ("transform A B map { , }\n", 1, 21),
    ("transform A B - 3\n", 0, 0),
    ("transform A B -3\n", 1, 15),
    ("transform A B + -3\n", 0, 0),
    // Tokens that are bad, also behind one that cannot go on.
    ("in A-B\n", 1, 5),
    ("in A - B\n", 1, 6),
    ("in A ! B\n", 1, 6),
    ("in 1A\n", 1, 4),
    ("bad in A $\n", 1, 10),
    ("in a\u{e9}\n", 1, 5),
    ("in \u{e9}\u{e9}\n", 1, 4),
    ("# \u{e9}\nin A $\n", 2, 6),
    ("fifo A B full +5\n", 1, 15),
    ("fifo A B full 05\n", 1, 15),
    ("fifo A B full -0\n", 1, 15),
    ("fifo A B full 0\n", 0, 0),
    ("fifo A B full -5\n", 0, 0),
    // Texts.
    ("fifo A B full \"a # b\"\n", 0, 0),
    ("fifo A B full \"\\\"\\\\\\n\\t\"\n", 0, 0),
    ("fifo A B full \"\\r\"\n", 1, 15),
    ("fifo A B full \"open\n", 1, 15),
    ("fifo A B full \"open\\\"\n", 1, 15),
    ("fifo A B full \"a\tb\"\n", 1, 15),
    ("fifo A B full \"\u{e9}\" $\n", 1, 20),
    // Names.
    ("in _1\nin in\nfifo fifo full\n", 0, 0),
    ("component component\n", 0, 0),
    // Places.
    ("in A\ncomponent c\nin B\n", 3, 1),
    ("component c\nfifo A B\n", 2, 1),
    ("put A 1\n", 1, 1),
    ("in A\nget A\n", 2, 1),
    ("component in\nin A\n", 2, 1),
];

#[test]
fn a_text_goes_wrong_at_its_first_wrong_token(rt: HostRuntime) {
    for (text, line, column) in SYNTAX {
        let wanted = if line == 0 {
            None
        } else {
            syntax(line, column)
        };
        assert_eq!(rt;
            refusal_of(rt.alloc(), text.as_bytes()),
            wanted,
            "at {text}"
        );
    }
}

/// What stands before a name and behind it, and the line and the column of the name.
const PLACES: [(&str, &str, u32, u32); 16] = [
    ("in ", "", 1, 4),
    ("out ", "", 1, 5),
    ("sync ", " B", 1, 6),
    ("sync A ", "", 1, 8),
    ("lossy ", " B", 1, 7),
    ("lossy A ", "", 1, 9),
    ("fifo ", " B full 1", 1, 6),
    ("fifo A ", " full 1", 1, 8),
    ("drain ", " B", 1, 7),
    ("drain A ", "", 1, 9),
    ("filter ", " B x = 1", 1, 8),
    ("filter A ", " x = 1", 1, 10),
    ("transform A ", " + 1", 1, 13),
    ("component ", "", 1, 11),
    ("in A\ncomponent P\nput ", " 1", 3, 5),
    ("out A\ncomponent P\nget ", "", 3, 5),
];

#[test]
fn a_name_of_65_bytes_goes_wrong_wherever_it_stands(rt: HostRuntime) {
    let alloc = rt.alloc();
    let long = "abcdefghijklm".repeat(alloc, 5).expect(&rt, "ample memory");
    for (before, behind, line, column) in PLACES {
        let text = format!(in alloc; "{before}{long}{behind}").expect(&rt, "ample memory");
        assert_eq!(rt;
            refusal_of(alloc, text.as_bytes()),
            syntax(line, column),
            "at {text}"
        );
    }
}

/// Texts that are refused for what their tokens say.
const REFUSED: [(&str, TextRefusal); 16] = [
    (
        "fifo A B full 4611686018427387904\n",
        TextRefusal::NumberRange(1),
    ),
    (
        "fifo A B full -4611686018427387905\n",
        TextRefusal::NumberRange(1),
    ),
    (
        "fifo A B full 99999999999999999999999\n",
        TextRefusal::NumberRange(1),
    ),
    ("filter A B x mod 0 = 0\n", TextRefusal::NumberRange(1)),
    ("filter A B x mod 5 = 7\n", TextRefusal::NumberRange(1)),
    (
        "filter A B x mod 1000001 = 7\n",
        TextRefusal::NumberRange(1),
    ),
    ("filter A B len <= 256\n", TextRefusal::NumberRange(1)),
    ("filter A B len <= -1\n", TextRefusal::NumberRange(1)),
    ("in A\ncomponent c\nget A\n", TextRefusal::WrongWay(3)),
    ("out A\ncomponent c\nput A 1\n", TextRefusal::WrongWay(3)),
    (
        "in A\nout A\ncomponent c\nput A 1\nget A\n",
        TextRefusal::WrongWay(5),
    ),
    (
        "fifo A B\ncomponent c\nput A 1\n",
        TextRefusal::UnknownPort(3),
    ),
    ("in A\ncomponent c\nput B 1\n", TextRefusal::UnknownPort(3)),
    (
        "in A\ncomponent c\nput A 1\ncomponent d\nput A 2\n",
        TextRefusal::PortShared(5),
    ),
    ("component c\ncomponent c\n", TextRefusal::ComponentTwice(2)),
    (
        "component c\ncomponent c\nin A\n",
        TextRefusal::ComponentTwice(2),
    ),
];

/// Texts at the bounds that these pass.
const ACCEPTED: [&str; 7] = [
    "fifo A B full 4611686018427387903\n",
    "fifo A B full -4611686018427387904\n",
    "filter A B x mod 1000000 = 999999\n",
    "filter A B len <= 255\n",
    "in A\ncomponent c\nput A 1\n",
    "out A\ncomponent c\nget A\nget A\n",
    "in A\nin B\ncomponent c\nput A 1\ncomponent d\nput B 2\n",
];

#[test]
fn other_refusals_tell_their_line(rt: HostRuntime) {
    for (text, refusal) in REFUSED {
        assert_eq!(rt;
            refusal_of(rt.alloc(), text.as_bytes()),
            Some(refusal),
            "at {text}"
        );
    }
    for text in ACCEPTED {
        assert_eq!(rt; refusal_of(rt.alloc(), text.as_bytes()), None, "at {text}");
    }
}

#[test]
fn bytes_that_are_not_utf8_are_told_first(rt: HostRuntime) {
    assert_eq!(rt;
        refusal_of(rt.alloc(), b"in A\n\xff\n"),
        Some(TextRefusal::NotUtf8(5))
    );
    assert_eq!(rt;
        refusal_of(rt.alloc(), b"bad\nin \xff"),
        Some(TextRefusal::NotUtf8(7))
    );
}

#[test]
fn bounds_names_components_and_operations(rt: HostRuntime) {
    let alloc = rt.alloc();
    let mut text = String::new(alloc);
    text.push_str("in ").expect(&rt, "ample memory");
    for _ in 0..64 {
        text.push('a').expect(&rt, "ample memory");
    }
    assert_eq!(rt; refusal_of(alloc, text.as_bytes()), None);
    text.push('a').expect(&rt, "ample memory");
    assert_eq!(rt; refusal_of(alloc, text.as_bytes()), syntax(1, 4));
    let mut text = String::new(alloc);
    for i in 0..129 {
        text.push_str(&format!(in alloc; "component c{i}\n").expect(&rt, "ample memory"))
            .expect(&rt, "ample memory");
    }
    assert_eq!(rt;
        refusal_of(alloc, text.as_bytes()),
        Some(TextRefusal::TooManyComponents(129))
    );
    let mut text = String::new(alloc);
    text.push_str("out A\ncomponent c\n")
        .expect(&rt, "ample memory");
    for _ in 0..100_000 {
        text.push_str("get A\n").expect(&rt, "ample memory");
    }
    assert_eq!(rt; refusal_of(alloc, text.as_bytes()), None);
    text.push_str("get A\n").expect(&rt, "ample memory");
    assert_eq!(rt;
        refusal_of(alloc, text.as_bytes()),
        Some(TextRefusal::TooManyOps(100_003))
    );
}

#[test]
fn bounds_tokens_and_texts(rt: HostRuntime) {
    let alloc = rt.alloc();
    let mut text = String::new(alloc);
    for _ in 0..512 {
        text.push_str("a ").expect(&rt, "ample memory");
    }
    assert_eq!(rt; refusal_of(alloc, text.as_bytes()), syntax(1, 1));
    text.push('$').expect(&rt, "ample memory");
    assert_eq!(rt;
        refusal_of(alloc, text.as_bytes()),
        Some(TextRefusal::LineLarge(1))
    );
    let mut text = String::new(alloc);
    text.push_str("fifo A B full \"")
        .expect(&rt, "ample memory");
    for _ in 0..255 {
        text.push('a').expect(&rt, "ample memory");
    }
    text.push('"').expect(&rt, "ample memory");
    assert_eq!(rt; refusal_of(alloc, text.as_bytes()), None);
    let mut text = String::new(alloc);
    text.push_str("fifo A B full \"")
        .expect(&rt, "ample memory");
    for _ in 0..256 {
        text.push('a').expect(&rt, "ample memory");
    }
    text.push('"').expect(&rt, "ample memory");
    assert_eq!(rt;
        refusal_of(alloc, text.as_bytes()),
        Some(TextRefusal::TextLong(1))
    );
}
