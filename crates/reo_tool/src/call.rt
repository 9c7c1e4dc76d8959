//! The call that does all that the program does.
ghost use Rattle.std.specs.Prelude.{◌≡◌, ◌+◌, ◌<◌, ◌^◌, ◌≤◌, ◌⊎◌, ◌↔◌, length, IsTrue, IfOk, IfErr, OnOk, None};
ghost use Rattle.reo_document.specs.Document.{circuit_of};
ghost use Rattle.reo_session.specs.Prepared.{Declines, IsPrepared};
ghost use Rattle.reo_session.specs.Text.{IsTextOfRun};
ghost use Rattle.reo_outline.specs.Outline.{outline_text};
ghost use Rattle.reo_tool.specs.Status.{status_of};
ghost use Rattle.reo_tool.specs.Words.{HasRoom};
ghost use Rattle.reo_tool.specs.FaultText.{text_text, session_text, out_of_memory_text};
ghost use Rattle.reo_tool.specs.Call.{asked, most_bytes, source_seen, sink_seen, sinks_seen, IsWritten, IsTold, Writes, ForDocument, ForBytes, ForCall, KeepsItsPromise, IsRefusable, IsOverlong, IsOrAbove};

use crate::command::{Command, command_of};
use crate::fault_text::{OUT_OF_MEMORY, READ_FAILED, TOO_LONG, USAGE, session_text, text_text};
use crate::status::{Status, unless_fault};
use reo_base::{ReadRefusal, Sink, Source, read_all, write_whole};
use reo_document::{Document, TextRefusal, read_document};
use reo_net::Net;
use reo_outline::outline_of;
use reo_print::print_document;
use reo_session::{Prepared, ReportText, SessionRefusal, plain_text, prepare};
use reo_value::Lexicon;
use std::alloc::{AllocError, Global};

/// The most bytes of a document.
pub const MOST_BYTES: usize = 1_048_576;

/// What a document is run by: its net, the cut of it and the tables of its regions.
pub fn prepare_document(alloc: Global, document: &Document) -> Result<Prepared, SessionRefusal>
    ensures prepared { IfOk result (IsPrepared (circuit_of document.now)) }
    ensures refused { IfErr result (Declines (circuit_of document.now)) }
{
    let raw = document.circuit(alloc)?;
    prepare(alloc, &raw)
}

/// Runs a document's scripts, and gives the text of the report.
fn text_of_run(
    alloc: Global,
    document: &Document,
    prepared: &Prepared,
    limit: u64,
) -> Result<ReportText, AllocError>
    requires prepared { IsPrepared (circuit_of document.now) prepared.now }
    requires limit { (1 ≤ limit) × (limit ≤ 100000) }
    ensures { IfOk result (IsTextOfRun (circuit_of document.now) document.now.nodes document.now.texts document.now.people document.now.scripts limit) }
{
    plain_text(
        alloc,
        prepared,
        document.nodes(),
        document.texts(),
        document.people(),
        document.scripts(),
        limit,
    )
}

/// The text that tells a document's regions.
fn outline(alloc: Global, document: &Document, prepared: &Prepared) -> Result<Vec<u8>, AllocError>
    requires { IsPrepared (circuit_of document.now) prepared.now }
    ensures { IfOk result (λ text. text.items ≡ outline_text (circuit_of document.now) document.now.nodes prepared.now.cut prepared.now.tables) }
{
    let Prepared { net, cut, tables } = prepared;
    let _ = net.nodes();
    outline_of(alloc, net, document.nodes(), cut, tables.as_slice())
}

/// Writes a text and gives the status, or the status of a failed write.
pub fn tell<E: Sink>(sink: &mut E, text: &[u8], status: Status) -> Status
    ensures told { IsWritten (sink_seen E.Sink sink.old) (sink_seen E.Sink sink.new) text.now status result }
{
    let written = write_whole(sink, text);
    unless_fault(written, status)
}

/// Tells that memory is wanting.
pub fn tell_memory<E: Sink>(err: &mut E) -> Status
    ensures told { IsWritten (sink_seen E.Sink err.old) (sink_seen E.Sink err.new) out_of_memory_text Status.Memory result }
{
    tell(err, OUT_OF_MEMORY, Status::Memory)
}

fn is_memory(refusal: TextRefusal) -> bool
    ensures { IsTrue result ↔ (refusal ≡ TextRefusal.NoMemory) }
{
    match refusal {
        TextRefusal::NoMemory => true,
        _ => false,
    }
}

/// Tells why bytes are no document.
pub fn tell_text<E: Sink>(alloc: Global, err: &mut E, refusal: TextRefusal) -> Status
    ensures told { IsTold (sink_seen E.Sink err.old) (sink_seen E.Sink err.new) (text_text refusal) Status.Refused result }
    ensures memory { refusal ≡ TextRefusal.NoMemory → IsWritten (sink_seen E.Sink err.old) (sink_seen E.Sink err.new) out_of_memory_text Status.Memory result }
{
    if is_memory(refusal) {
        return tell_memory(err);
    }
    match text_text(alloc, refusal) {
        Ok(text) => tell(err, text.as_bytes(), Status::Refused),
        Err(_) => tell_memory(err),
    }
}

fn is_want_of_memory(refusal: SessionRefusal) -> bool
    ensures { IsTrue result ↔ (refusal ≡ SessionRefusal.NoMemory) }
{
    match refusal {
        SessionRefusal::NoMemory => true,
        _ => false,
    }
}

/// Tells why a document can not be run.
pub fn tell_session<E: Sink>(
    alloc: Global,
    err: &mut E,
    nodes: &Lexicon,
    refusal: SessionRefusal,
) -> Status
    ensures told { IsTold (sink_seen E.Sink err.old) (sink_seen E.Sink err.new) (session_text nodes.now refusal) Status.Refused result }
    ensures memory { refusal ≡ SessionRefusal.NoMemory → IsWritten (sink_seen E.Sink err.old) (sink_seen E.Sink err.new) out_of_memory_text Status.Memory result }
{
    if is_want_of_memory(refusal) {
        return tell_memory(err);
    }
    match session_text(alloc, nodes, refusal) {
        Ok(text) => tell(err, text.as_bytes(), Status::Refused),
        Err(_) => tell_memory(err),
    }
}

/// Runs a document with a limit on its steps.
fn run_document<K: Sink, E: Sink>(
    alloc: Global,
    limit: u64,
    document: &Document,
    out: &mut K,
    err: &mut E,
) -> Status
    requires { (1 ≤ limit) × (limit ≤ 100000) }
    ensures { Writes (ForDocument (Command.Run limit) document.now) (sinks_seen K.Sink E.Sink out.old err.old) (sinks_seen K.Sink E.Sink out.new err.new) result }
{
    let prepared = match prepare_document(alloc, document) {
        Ok(prepared) => prepared,
        Err(refusal) => return tell_session(alloc, err, document.nodes(), refusal),
    };
    match text_of_run(alloc, document, &prepared, limit) {
        Ok(text) => tell(out, text.bytes.as_slice(), Status::of_ending(text.ending)),
        Err(_) => tell_memory(err),
    }
}

/// Tells the regions of a document.
fn plan_document<K: Sink, E: Sink>(
    alloc: Global,
    document: &Document,
    out: &mut K,
    err: &mut E,
) -> Status
    ensures { Writes (ForDocument Command.Plan document.now) (sinks_seen K.Sink E.Sink out.old err.old) (sinks_seen K.Sink E.Sink out.new err.new) result }
{
    let prepared = match prepare_document(alloc, document) {
        Ok(prepared) => prepared,
        Err(refusal) => return tell_session(alloc, err, document.nodes(), refusal),
    };
    match outline(alloc, document, &prepared) {
        Ok(text) => tell(out, text.as_slice(), Status::Done),
        Err(_) => tell_memory(err),
    }
}

/// Shows a document.
fn show_document<K: Sink, E: Sink>(
    alloc: Global,
    document: &Document,
    out: &mut K,
    err: &mut E,
) -> Status
    ensures { Writes (ForDocument Command.Show document.now) (sinks_seen K.Sink E.Sink out.old err.old) (sinks_seen K.Sink E.Sink out.new err.new) result }
{
    match print_document(alloc, document) {
        Ok(text) => tell(out, text.as_slice(), Status::Done),
        Err(_) => tell_memory(err),
    }
}

fn answer_document<K: Sink, E: Sink>(
    alloc: Global,
    command: Command,
    document: &Document,
    out: &mut K,
    err: &mut E,
) -> Status
    requires { HasRoom command }
    ensures { Writes (ForDocument command document.now) (sinks_seen K.Sink E.Sink out.old err.old) (sinks_seen K.Sink E.Sink out.new err.new) result }
{
    match command {
        Command::Run(limit) => run_document(alloc, limit, document, out, err),
        Command::Show => show_document(alloc, document, out, err),
        Command::Plan => plan_document(alloc, document, out, err),
    }
}

/// Does a command with the bytes that were read.
fn answer_bytes<K: Sink, E: Sink>(
    alloc: Global,
    command: Command,
    bytes: &[u8],
    out: &mut K,
    err: &mut E,
) -> Status
    requires room { HasRoom command }
    requires short { length bytes.now ≤ most_bytes }
    ensures { Writes (ForBytes command bytes.now) (sinks_seen K.Sink E.Sink out.old err.old) (sinks_seen K.Sink E.Sink out.new err.new) result }
{
    match read_document(alloc, bytes) {
        Ok(document) => answer_document(alloc, command, &document, out, err),
        Err(refusal) => tell_text(alloc, err, refusal),
    }
}

/// Does what the words ask for, with what is read from the source.
fn answer<S: Source, K: Sink, E: Sink>(
    alloc: Global,
    words: &[&str],
    source: &mut S,
    out: &mut K,
    err: &mut E,
) -> Status
    ensures cause { Writes (ForCall words.now (source_seen S.Source source.old) (source_seen S.Source source.new)) (sinks_seen K.Sink E.Sink out.old err.old) (sinks_seen K.Sink E.Sink out.new err.new) result }
    ensures unread { asked words.now ≡ None → source.new ≡ source.old }
{
    let Some(command) = command_of(words) else {
        return tell(err, USAGE, Status::Usage);
    };
    match read_all(alloc, source, MOST_BYTES) {
        Ok(bytes) => answer_bytes(alloc, command, bytes.as_slice(), out, err),
        Err(ReadRefusal::Fault) => tell(err, READ_FAILED, Status::ReadFault),
        Err(ReadRefusal::TooLong) => tell(err, TOO_LONG, Status::ReadFault),
        Err(ReadRefusal::NoMemory) => tell_memory(err),
    }
}

/// Does all that the program does on one thread, for `run --plain` with or without `--limit N`, for `show` and for `plan`: reads a
/// document from the source, runs it and writes its report to `out`, or writes its canonical text, or tells its regions. A refusal, a failed or overlong read,
/// other words and want of memory are told in one line to `err`; of a failed write only the status tells. It needs no threads,
/// never waits, and returns if the streams' own calls do.
pub fn plain_call<S: Source, K: Sink, E: Sink>(
    alloc: Global,
    words: &[&str],
    source: &mut S,
    out: &mut K,
    err: &mut E,
) -> Status
    // There is a cause for what is written and for the status.
    ensures cause { Writes (ForCall words.now (source_seen S.Source source.old) (source_seen S.Source source.new)) (sinks_seen K.Sink E.Sink out.old err.old) (sinks_seen K.Sink E.Sink out.new err.new) result }

    // The answer for a document is lawful, and is written whole.
    ensures lawful { KeepsItsPromise words.now (source_seen S.Source source.old) (source_seen S.Source source.new) (sinks_seen K.Sink E.Sink out.old err.old) (sinks_seen K.Sink E.Sink out.new err.new) result }

    // Where a cause is there, its status comes, or one that stands above it.
    ensures refusal { IsRefusable words.now (source_seen S.Source source.old) (source_seen S.Source source.new) → IsOrAbove Status.Refused result }
    ensures overlong { IsOverlong words.now (source_seen S.Source source.old) → IsOrAbove Status.ReadFault result }
    ensures usage { asked words.now ≡ None → (result ≡ Status.Usage) ⊎ (result ≡ Status.WriteFault) }
    ensures unread { asked words.now ≡ None → source.new ≡ source.old }
{
    answer(alloc, words, source, out, err)
}
