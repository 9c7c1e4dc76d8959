//! Circuits of all six kinds of channel, worked by hand, through the call that does all that the program does.
use crate::rows::called;
use reo_tool::Status;

const ROUTER: &str =
    "in A\nlossy A F\nlossy A G\nsync F B\nsync F M\nsync G C\nsync G M\ndrain A M\nout B\nout C\ncomponent P\nput A 5\ncomponent Q\nget B\ncomponent R\nget C\n";

const ALTERNATOR: &str =
    "in A\nin B\ndrain A B\nsync A C\nfifo B C\nout C\ncomponent P\nput A 1\ncomponent Q\nput B 2\ncomponent R\nget C\nget C\n";

const SEQUENCER: &str =
    "fifo Z X full \"go\"\nsync X A\nfifo X Y\nsync Y B\nfifo Y Z\nsync Z C\nout A\nout B\nout C\ncomponent a\nget A\nget A\ncomponent b\nget B\ncomponent c\nget C\n";

const SHOP: &str =
    "in shop\nin kiosk\nout audit\nout desk\nfifo shop all\nfifo kiosk all\nsync all audit\nfilter all big x >= 100\ntransform big till + 20\nfifo till desk\ncomponent Shop\nput shop 120\nput shop 40\ncomponent Kiosk\nput kiosk 300\ncomponent Auditor\nget audit\nget audit\nget audit\ncomponent Desk\nget desk\nget desk\n";

const FIRST: &str = "in A\nfifo A B\nout B\ncomponent P\nput A 1\ncomponent C\nget B\n";

type Row = (&'static [&'static str], &'static str, Status, &'static str);

const RUN: &[&str] = &["run", "--plain"];

/// Words and a text, and the status and the output that they have, with nothing on standard error.
const ROWS: &[Row] = &[
    (
        RUN,
        ROUTER,
        Status::Stuck,
        "step 0 A!=5 B?=5 1.a=5 1.b=5 2.a=5 3.a=5 3.b=5 4.a=5 4.b=5 7.a=5 7.b=5\ncall P put A 5 at 0\ncall Q get B 5 at 0\nend stuck\n",
    ),
    (
        &["plan"],
        ROUTER,
        Status::Done,
        "regions 1\nregion 1 automata 13 firings 2 growth 54\nfiring A! B? 1.a 1.b 2.a 3.a 3.b 4.a 4.b 7.a 7.b\nfiring A! C? 1.a 2.a 2.b 5.a 5.b 6.a 6.b 7.a 7.b\nport A! region 1\nport B? region 1\nport C? region 1\n",
    ),
    (
        &["plan"],
        FIRST,
        Status::Done,
        "regions 2\nregion 1 automata 1 firings 1 growth 1\nfiring A! 1.a\nregion 2 automata 1 firings 1 growth 1\nfiring B? 1.b\ncell 1 from 1 to 2\nport A! region 1\nport B? region 2\n",
    ),
    (
        RUN,
        ALTERNATOR,
        Status::Done,
        "step 0 A!=1 B!=2 C?=1 1.a=1 1.b=2 2.a=1 2.b=1 3.a=2\nstep 1 C?=2 3.b=2\ncall P put A 1 at 0\ncall Q put B 2 at 0\ncall R get C 1 at 0\ncall R get C 2 at 1\nend done\n",
    ),
    (
        RUN,
        SEQUENCER,
        Status::Done,
        "step 0 A?=\"go\" 1.b=\"go\" 2.a=\"go\" 2.b=\"go\" 3.a=\"go\"\nstep 1 B?=\"go\" 3.b=\"go\" 4.a=\"go\" 4.b=\"go\" 5.a=\"go\"\nstep 2 C?=\"go\" 1.a=\"go\" 5.b=\"go\" 6.a=\"go\" 6.b=\"go\"\nstep 3 A?=\"go\" 1.b=\"go\" 2.a=\"go\" 2.b=\"go\" 3.a=\"go\"\ncall a get A \"go\" at 0\ncall a get A \"go\" at 3\ncall b get B \"go\" at 1\ncall c get C \"go\" at 2\nend done\n",
    ),
    (
        RUN,
        "in A\nlossy A B\nfifo B C\nout C\ncomponent P\nput A 1\nput A 2\nput A 3\n",
        Status::Done,
        "step 0 A!=1 1.a=1 1.b=1 2.a=1\nstep 1 A!=2 1.a=2\nstep 2 A!=3 1.a=3\ncall P put A 1 at 0\ncall P put A 2 at 1\ncall P put A 3 at 2\nend done\n",
    ),
    (
        RUN,
        "in A\nfilter A B x > 3\nout B\ncomponent P\nput A 3\nput A 4\nput A \"four\"\ncomponent Q\nget B\n",
        Status::Done,
        "step 0 A!=3 1.a=3\nstep 1 A!=4 B?=4 1.a=4 1.b=4\nstep 2 A!=\"four\" 1.a=\"four\"\ncall P put A 3 at 0\ncall P put A 4 at 1\ncall P put A \"four\" at 2\ncall Q get B 4 at 1\nend done\n",
    ),
    (
        RUN,
        "in A\ntransform A B + 1\nout B\ncomponent P\nput A 4611686018427387902\nput A 4611686018427387903\ncomponent Q\nget B\nget B\n",
        Status::Stuck,
        "step 0 A!=4611686018427387902 B?=4611686018427387903 1.a=4611686018427387902 1.b=4611686018427387903\ncall P put A 4611686018427387902 at 0\ncall Q get B 4611686018427387903 at 0\nend stuck\n",
    ),
    (
        RUN,
        "in A\nfifo A B\nout B\ncomponent P\nput A 1\nput A 2\n",
        Status::Stuck,
        "step 0 A!=1 1.a=1\ncall P put A 1 at 0\nend stuck\n",
    ),
    (
        RUN,
        "in A\ntransform A B + 1\nfilter B C x > 3\nout C\ncomponent P\nput A 2\nput A 3\nput A \"t\"\ncomponent Q\nget C\n",
        Status::Stuck,
        "step 0 A!=2 1.a=2 1.b=3 2.a=3\nstep 1 A!=3 C?=4 1.a=3 1.b=4 2.a=4 2.b=4\ncall P put A 2 at 0\ncall P put A 3 at 1\ncall Q get C 4 at 1\nend stuck\n",
    ),
    (
        RUN,
        "in S\nfifo S A\nfilter A B x > 3\nfilter A C not x > 3\nout B\nout C\ncomponent P\nput S 5\nput S 1\ncomponent Q\nget B\ncomponent R\nget C\n",
        Status::Done,
        "step 0 S!=5 1.a=5\nstep 1 B?=5 1.b=5 2.a=5 2.b=5 3.a=5\nstep 2 S!=1 1.a=1\nstep 3 C?=1 1.b=1 2.a=1 3.a=1 3.b=1\ncall P put S 5 at 0\ncall P put S 1 at 2\ncall Q get B 5 at 1\ncall R get C 1 at 3\nend done\n",
    ),
    (
        RUN,
        SHOP,
        Status::Done,
        "step 0 shop!=120 1.a=120\nstep 1 kiosk!=300 2.a=300\nstep 2 audit?=120 1.b=120 3.a=120 3.b=120 4.a=120 4.b=120 5.a=120 5.b=140 6.a=140\nstep 3 shop!=40 1.a=40\nstep 4 desk?=140 6.b=140\nstep 5 audit?=300 2.b=300 3.a=300 3.b=300 4.a=300 4.b=300 5.a=300 5.b=320 6.a=320\nstep 6 desk?=320 6.b=320\nstep 7 audit?=40 1.b=40 3.a=40 3.b=40 4.a=40\ncall Shop put shop 120 at 0\ncall Shop put shop 40 at 3\ncall Kiosk put kiosk 300 at 1\ncall Auditor get audit 120 at 2\ncall Auditor get audit 300 at 5\ncall Auditor get audit 40 at 7\ncall Desk get desk 140 at 4\ncall Desk get desk 320 at 6\nend done\n",
    ),
    (
        &["run", "--limit", "3", "--plain"],
        "fifo X Y full 1\nfifo Y X\nfifo G H\nout H\ncomponent Q\nget H\n",
        Status::Limit,
        "step 0 1.b=1 2.a=1\nstep 1 1.a=1 2.b=1\nstep 2 1.b=1 2.a=1\nend limit\n",
    ),
    (
        &["show"],
        "# odd ones out\nin\tA\nfilter A B not (x<3 or (x mod 2=1)) and is int   # keep\ntransform  B C map {1->\"a\",\"b\"->2}\n  component P\nput A \"a\\\"b\"",
        Status::Done,
        "in A\nfilter A B not (x < 3 or x mod 2 = 1) and is int\ntransform B C map { 1 -> \"a\", \"b\" -> 2 }\ncomponent P\nput A \"a\\\"b\"\n",
    ),
    (
        &["show"],
        "in A\nfilter A B not (x < 3 or x mod 2 = 1) and is int\ntransform B C map { 1 -> \"a\", \"b\" -> 2 }\ncomponent P\nput A \"a\\\"b\"\n",
        Status::Done,
        "in A\nfilter A B not (x < 3 or x mod 2 = 1) and is int\ntransform B C map { 1 -> \"a\", \"b\" -> 2 }\ncomponent P\nput A \"a\\\"b\"\n",
    ),
    (
        &["show"],
        "filter A B ((x = 1 or is text) or len <= 3) and (not not x = \"\\\\\\t\")\ntransform B C - 3\ntransform C D map{}\nlossy D  E\ndrain E F#x\nfifo F G full -1\r\n",
        Status::Done,
        "filter A B (x = 1 or is text or len <= 3) and not not x = \"\\\\\\t\"\ntransform B C - 3\ntransform C D map { }\nlossy D E\ndrain E F\nfifo F G full -1\n",
    ),
    (
        &["show"],
        "sync A B\nsync B A\n",
        Status::Done,
        "sync A B\nsync B A\n",
    ),
];

#[test]
fn each_circuit_has_its_report(rt: HostRuntime) {
    let alloc = rt.alloc();
    for (words, text, status, out) in ROWS {
        let written = called(alloc, words, text, Vec::new(alloc), Vec::new(alloc)).expect(
            &rt,
            "ample memory",
        );
        assert_eq!(rt; written.status, *status, "at {text}");
        assert_eq!(rt; written.out.bytes(), out.as_bytes(), "at {text}");
        assert_eq!(rt; written.err.bytes(), "".as_bytes(), "at {text}");
    }
}
