//! The call that does all that the program does.
ghost use Rattle.std.specs.Prelude.{◌≡◌, ◌≤◌, ◌↔◌, length, IsTrue, IfOk, IfErr};
ghost use Rattle.reo_net.specs.Refusals.{Refuses};
ghost use Rattle.reo_document.specs.Document.{circuit_of};
ghost use Rattle.reo_tool.specs.FaultText.{check_text, out_of_memory_text};
ghost use Rattle.reo_tool.specs.Call.{most_bytes, source_seen, sink_seen, sinks_seen, IsWritten, IsTold, Writes};
ghost use Rattle.reo_draw.specs.Draw.{IsPictureOf, ForDocument, ForBytes, ForDrawing, KeepsItsPromise};

use reo_base::{ReadRefusal, Sink, Source, read_all};
use reo_cut::cut_of;
use reo_document::{Document, read_document};
use reo_net::{CheckRefusal, Net, check};
use reo_picture::picture_of;
use reo_session::SessionRefusal;
use reo_tool::{
    MOST_BYTES, READ_FAILED, Status, TOO_LONG, tell, tell_memory, tell_session, tell_text,
};
use reo_value::Lexicon;
use std::alloc::{AllocError, Global};

/// The circuit of a document, where it passes the checks.
fn net_of(alloc: Global, document: &Document) -> Result<Net, CheckRefusal>
    ensures net { IfOk result (λ net. net ≡ circuit_of document.now) }
    ensures refused { IfErr result (Refuses (circuit_of document.now)) }
{
    let raw = document.circuit(alloc)?;
    check(alloc, &raw)
}

/// The picture of a document.
fn picture(alloc: Global, document: &Document, net: &Net) -> Result<Vec<u8>, AllocError>
    requires { net.now ≡ circuit_of document.now }
    ensures { IfOk result (λ text. IsPictureOf document.now text.items) }
{
    let _ = net.nodes();
    let cut = cut_of(alloc, net)?;
    let text = picture_of(alloc, net, document.nodes(), document.texts(), &cut)?;
    Ok(text)
}

fn is_want_of_memory(refusal: CheckRefusal) -> bool
    ensures { IsTrue result ↔ (refusal ≡ CheckRefusal.NoMemory) }
{
    match refusal {
        CheckRefusal::NoMemory => true,
        _ => false,
    }
}

/// Tells why a circuit is not drawn.
fn tell_check<E: Sink>(alloc: Global, err: &mut E, nodes: &Lexicon, refusal: CheckRefusal) -> Status
    ensures told { IsTold (sink_seen E.Sink err.old) (sink_seen E.Sink err.new) (check_text nodes.now refusal) Status.Refused result }
    ensures memory { refusal ≡ CheckRefusal.NoMemory → IsWritten (sink_seen E.Sink err.old) (sink_seen E.Sink err.new) out_of_memory_text Status.Memory result }
{
    if is_want_of_memory(refusal) {
        tell_memory(err)
    } else {
        tell_session(alloc, err, nodes, SessionRefusal::Check(refusal))
    }
}

/// Draws a document, or tells why its circuit is refused.
fn draw_document<K: Sink, E: Sink>(
    alloc: Global,
    document: &Document,
    out: &mut K,
    err: &mut E,
) -> Status
    ensures { Writes (ForDocument document.now) (sinks_seen K.Sink E.Sink out.old err.old) (sinks_seen K.Sink E.Sink out.new err.new) result }
{
    let net = match net_of(alloc, document) {
        Ok(net) => net,
        Err(refusal) => return tell_check(alloc, err, document.nodes(), refusal),
    };
    match picture(alloc, document, &net) {
        Ok(text) => tell(out, text.as_slice(), Status::Done),
        Err(_) => tell_memory(err),
    }
}

/// Draws the document that the bytes spell, or tells why they spell none.
fn draw_bytes<K: Sink, E: Sink>(alloc: Global, bytes: &[u8], out: &mut K, err: &mut E) -> Status
    requires { length bytes.now ≤ most_bytes }
    ensures { Writes (ForBytes bytes.now) (sinks_seen K.Sink E.Sink out.old err.old) (sinks_seen K.Sink E.Sink out.new err.new) result }
{
    match read_document(alloc, bytes) {
        Ok(document) => draw_document(alloc, &document, out, err),
        Err(refusal) => tell_text(alloc, err, refusal),
    }
}

/// Reads the source and draws, or tells why it could not be read.
fn draw<S: Source, K: Sink, E: Sink>(
    alloc: Global,
    source: &mut S,
    out: &mut K,
    err: &mut E,
) -> Status
    ensures { Writes (ForDrawing (source_seen S.Source source.old) (source_seen S.Source source.new)) (sinks_seen K.Sink E.Sink out.old err.old) (sinks_seen K.Sink E.Sink out.new err.new) result }
{
    match read_all(alloc, source, MOST_BYTES) {
        Ok(bytes) => draw_bytes(alloc, bytes.as_slice(), out, err),
        Err(ReadRefusal::Fault) => tell(err, READ_FAILED, Status::ReadFault),
        Err(ReadRefusal::TooLong) => tell(err, TOO_LONG, Status::ReadFault),
        Err(ReadRefusal::NoMemory) => tell_memory(err),
    }
}

/// Does all that the program does where it has no words: reads a document from the source and writes its picture to `out`. A
/// refusal, a failed or overlong read and want of memory are told in one line to `err`; of a failed write only the status tells.
pub(crate) fn draw_call<S: Source, K: Sink, E: Sink>(
    alloc: Global,
    source: &mut S,
    out: &mut K,
    err: &mut E,
) -> Status
    // There is a cause for what is written and for the status.
    ensures cause { Writes (ForDrawing (source_seen S.Source source.old) (source_seen S.Source source.new)) (sinks_seen K.Sink E.Sink out.old err.old) (sinks_seen K.Sink E.Sink out.new err.new) result }

    // A document whose circuit passes the checks is drawn, and its picture is written whole.
    ensures drawn { KeepsItsPromise (source_seen S.Source source.old) (source_seen S.Source source.new) (sinks_seen K.Sink E.Sink out.old err.old) (sinks_seen K.Sink E.Sink out.new err.new) result }
{
    draw(alloc, source, out, err)
}
