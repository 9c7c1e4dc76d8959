//! Rows worked by hand, through the call that does all that the program does.
use reo_base::{MemorySink, MemorySource};
use reo_tool::{Status, plain_call};
use std::alloc::{AllocError, Global};

const FIRST: &str = "in A\nfifo A B\nout B\ncomponent P\nput A 1\ncomponent C\nget B\n";

const FIRST_REPORT: &str =
    "step 0 A!=1 1.a=1\nstep 1 B?=1 1.b=1\ncall P put A 1 at 0\ncall C get B 1 at 1\nend done\n";

/// A run that goes on for ever.
const RING: &str = "fifo X Y full 1\nfifo Y X\nfifo G H\nout H\ncomponent Q\nget H\n";

/// What a call answered and wrote.
#[derive(Drop)]
pub struct Written {
    pub status: Status,
    pub out: MemorySink,
    pub err: MemorySink,
}

/// Calls with pieces of 4 bytes read and of 5 bytes written.
pub fn called(
    alloc: Global,
    words: &[&str],
    text: &str,
    failing_reads: Vec<u64>,
    failing_writes: Vec<u64>,
) -> Result<Written, AllocError> {
    let mut bytes = Vec::new(alloc);
    bytes.extend_from_slice(text.as_bytes())?;
    let mut source = MemorySource::new(bytes, 4, failing_reads);
    let mut out = MemorySink::new(alloc, 1 << 22, 5, failing_writes)?;
    let mut err = MemorySink::new(alloc, 1 << 10, 5, Vec::new(alloc))?;
    let status = plain_call(alloc, words, &mut source, &mut out, &mut err);
    Ok(Written { status, out, err })
}

/// A text, and the status, the output and the complaint that it has.
const ROWS: [(&str, Status, &str, &str); 18] = [
    (FIRST, Status::Done, FIRST_REPORT, ""),
    ("", Status::Done, "end done\n", ""),
    ("component P\n", Status::Done, "end done\n", ""),
    (
        "fifo A B\nout B\ncomponent C\nget B\n",
        Status::Stuck,
        "end stuck\n",
        "",
    ),
    (
        "fifo A B full 7\nout B\ncomponent C\nget B\nget B\n",
        Status::Stuck,
        "step 0 B?=7 1.b=7\ncall C get B 7 at 0\nend stuck\n",
        "",
    ),
    (
        "in A\nfifo A B\nfifo A C\nout B\nout C\ncomponent P\nput A -5\ncomponent Q\nget B\ncomponent R\nget C\n",
        Status::Done,
        "step 0 A!=-5 1.a=-5 2.a=-5\nstep 1 B?=-5 1.b=-5\nstep 2 C?=-5 2.b=-5\ncall P put A -5 at 0\ncall Q get B -5 at 1\ncall R get C -5 at 2\nend done\n",
        "",
    ),
    (
        "fifo X Y full 1\nfifo Y X\n",
        Status::Done,
        "end done\n",
        "",
    ),
    (
        "fifo X Y full 1\nfifo Y X\nin A\nfifo A B\nout B\ncomponent P\nput A 5\ncomponent Q\nget B\n",
        Status::Done,
        "step 0 1.b=1 2.a=1\nstep 1 A!=5 3.a=5\nstep 2 B?=5 3.b=5\ncall P put A 5 at 1\ncall Q get B 5 at 2\nend done\n",
        "",
    ),
    (
        "fifo A C full 1\nfifo B C full 2\nout C\ncomponent Q\nget C\nget C\n",
        Status::Done,
        "step 0 C?=1 1.b=1\nstep 1 C?=2 2.b=2\ncall Q get C 1 at 0\ncall Q get C 2 at 1\nend done\n",
        "",
    ),
    (
        "sync A B\nsync B A\n",
        Status::Refused,
        "",
        "reo: node A: synchronous loop\n",
    ),
    (
        "in A\nfifo A",
        Status::Refused,
        "",
        "reo: line 2, column 7: syntax\n",
    ),
    (
        "fifo A B full 4611686018427387904\n",
        Status::Refused,
        "",
        "reo: line 1: number out of range\n",
    ),
    (
        "component c\ncomponent c\n",
        Status::Refused,
        "",
        "reo: line 2: component named twice\n",
    ),
    (
        "in A\ncomponent P\nput B 1\n",
        Status::Refused,
        "",
        "reo: line 3: unknown port\n",
    ),
    (
        "out B\ncomponent C\nput B 1\n",
        Status::Refused,
        "",
        "reo: line 3: wrong way\n",
    ),
    (
        "in A\ncomponent P\nput A 1\ncomponent Q\nput A 2\n",
        Status::Refused,
        "",
        "reo: line 5: port shared\n",
    ),
    (
        "fifo X A\nin A\n",
        Status::Refused,
        "",
        "reo: node A: mixed node as port\n",
    ),
    (
        "in A\nout A\n",
        Status::Refused,
        "",
        "reo: node A: two ports\n",
    ),
];

#[test]
fn each_row_has_its_status_and_text(rt: HostRuntime) {
    let alloc = rt.alloc();
    for (text, status, out, err) in ROWS {
        let written = called(
            alloc,
            &["run", "--plain"],
            text,
            Vec::new(alloc),
            Vec::new(alloc),
        )
        .expect(&rt, "ample memory");
        assert_eq!(rt; written.status, status, "at {text}");
        assert_eq!(rt; written.out.bytes(), out.as_bytes(), "at {text}");
        assert_eq!(rt; written.err.bytes(), err.as_bytes(), "at {text}");
    }
}

#[test]
fn other_words_read_nothing(rt: HostRuntime) {
    let alloc = rt.alloc();
    for words in [
        &[][..],
        &["run"],
        &["run", "--plain", "--plain"],
        &["run", "--limit"],
        &["run", "--plain", "--limit", "010"],
        &["run", "--plain", "--limit", "0"],
        &["run", "--plain", "--limit", "100001"],
        &["shows"],
        &["plan", "x"],
    ] {
        let written = called(
            alloc,
            words,
            FIRST,
            vec![in alloc; 1].expect(&rt, "ample memory"),
            Vec::new(alloc),
        )
        .expect(&rt, "ample memory");
        assert_eq!(rt; written.status, Status::Usage);
        assert!(rt; written.err.bytes().starts_with(b"reo: usage: reo run "));
        assert_eq!(rt; written.out.bytes(), "".as_bytes());
    }
}

#[test]
fn faults_of_the_streams_have_their_status(rt: HostRuntime) {
    let alloc = rt.alloc();
    let words = &["run", "--plain"];
    let unread = called(
        alloc,
        words,
        FIRST,
        vec![in alloc; 2].expect(&rt, "ample memory"),
        Vec::new(alloc),
    )
    .expect(&rt, "ample memory");
    assert_eq!(rt; unread.status, Status::ReadFault);
    assert_eq!(rt; unread.err.bytes(), "reo: read failed\n".as_bytes());
    let unwritten = called(
        alloc,
        words,
        FIRST,
        Vec::new(alloc),
        vec![in alloc; 2].expect(&rt, "ample memory"),
    )
    .expect(&rt, "ample memory");
    assert_eq!(rt; unwritten.status, Status::WriteFault);
    assert_eq!(rt; unwritten.out.bytes(), "step ".as_bytes());
    let mut text = String::new(alloc);
    for _ in 0..1_048_577 {
        text.push('#').expect(&rt, "ample memory");
    }
    let overlong = called(alloc, words, &text, Vec::new(alloc), Vec::new(alloc)).expect(
        &rt,
        "ample memory",
    );
    assert_eq!(rt; overlong.status, Status::ReadFault);
    assert_eq!(rt;
        overlong.err.bytes(),
        "reo: input is longer than 1048576 bytes\n".as_bytes()
    );
}

#[test]
fn a_run_ends_at_its_limit(rt: HostRuntime) {
    let alloc = rt.alloc();
    let ring = called(
        alloc,
        &["run", "--plain"],
        RING,
        Vec::new(alloc),
        Vec::new(alloc),
    )
    .expect(&rt, "ample memory");
    assert_eq!(rt; ring.status, Status::Limit);
    assert!(rt;
        ring.out
            .bytes()
            .starts_with(b"step 0 1.b=1 2.a=1\nstep 1 1.a=1 2.b=1\n")
    );
    assert!(rt;
        ring.out
            .bytes()
            .ends_with(b"step 99999 1.a=1 2.b=1\nend limit\n")
    );
}
