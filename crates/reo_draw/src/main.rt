//! The program `reo_draw`: it reads a document from standard input and writes its picture to standard output.
#![tactic(auto)]

mod call;

use call::draw_call;
use reo_base::{StdSink, StdSource};
use reo_tool::{Status, tell};
use std::env;
use std::process::ExitCode;

const USAGE: &[u8] = b"reo: usage: reo_draw < DOCUMENT\n";

/// Whether there are words behind the program's name, or words that can not be read.
fn has_words(rt: &HostRuntime) -> bool {
    match env::args(rt) {
        Ok(arguments) => arguments.skip(1).next().is_some(),
        Err(_) => true,
    }
}

fn main(rt: HostRuntime) -> ExitCode {
    let alloc = rt.alloc();
    let mut source = StdSource::new(rt.stdin());
    let mut out = StdSink::new(rt.stdout());
    let mut err = StdSink::new(rt.stderr());
    let status = if has_words(&rt) {
        tell(&mut err, USAGE, Status::Usage)
    } else {
        draw_call(alloc, &mut source, &mut out, &mut err)
    };
    ExitCode::from(status.code())
}
