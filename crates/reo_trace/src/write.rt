//! The writing of a report's text to a sink.
ghost use Rattle.std.specs.Prelude.{◌≡◌, ◌<◌, ◌≤◌, length, take, IfOk, OnOk, IsErrOf};
ghost use Rattle.reo_base.specs.Faults.{Rose};
ghost use Rattle.reo_base.specs.Streams.{IsExtended};
ghost use Rattle.reo_trace.specs.declared.write.WriteRefusal.TheVariants.{NoMemory};
ghost use Rattle.reo_trace.specs.ReportText.{report_text};
ghost use Rattle.reo_trace.specs.Write.{IfFault};

use crate::{Recorder, Report, ReportLines};
use reo_base::{Sink, write_whole};
use reo_net::Net;
use reo_value::Lexicon;
use std::alloc::{AllocError, Global};
use thiserror::Error;

/// Why a report was not written whole.
#[derive(Clone, Copy, Debug, PartialEq, Eq, Error)]
pub enum WriteRefusal {
    /// A write failed after so many bytes of the text.
    #[error("a write failed after {0} bytes")]
    Fault(usize),
    /// There was no memory for the text.
    #[error("out of memory")]
    NoMemory,
}

impl From<AllocError> for WriteRefusal {
    ghost use Rattle.std.specs.Prelude.{◌≡◌};

    ghost from_gives = { λ _ refusal. refusal ≡ NoMemory };

    fn from(_: AllocError) -> Self {
        WriteRefusal::NoMemory
    }
}

/// The text of a report, in one buffer.
fn text_of(
    alloc: Global,
    net: &Net,
    nodes: &Lexicon,
    texts: &Lexicon,
    people: &Lexicon,
    report: &Report,
) -> Result<Vec<u8>, AllocError>
    ensures { IfOk result (λ text. text.items ≡ report_text net.now nodes.now texts.now people.now report.now) }
{
    let mut lines = ReportLines::new(alloc, net, nodes, texts)?;
    for step in report.steps.as_slice() {
        lines.keep(step.pairs.as_slice())?;
    }
    lines.end(people, report.calls.as_slice(), report.ending)
}

/// Writes the text of a report, once all of it is made. A name that is not there is written as no bytes.
pub fn write_report<K: Sink>(
    alloc: Global,
    out: &mut K,
    net: &Net,
    nodes: &Lexicon,
    texts: &Lexicon,
    people: &Lexicon,
    report: &Report,
) -> Result<(), WriteRefusal>
    ensures whole { OnOk result (IsExtended (K.written out.old) (K.written out.new) (report_text net.now nodes.now texts.now people.now report.now)) }
    ensures front { IfFault result (λ written. IsExtended (K.written out.old) (K.written out.new) (take written (report_text net.now nodes.now texts.now people.now report.now))) }
    ensures short { IfFault result (λ written. written < length (report_text net.now nodes.now texts.now people.now report.now)) }
    ensures rose { IfFault result (λ _. Rose (K.faults out.old) (K.faults out.new)) }
    ensures untouched { IsErrOf result NoMemory → out.new ≡ out.old }
    ensures later { K.faults out.old ≤ K.faults out.new }
    ensures kept { OnOk result (K.faults out.new ≡ K.faults out.old) }
{
    let text = text_of(alloc, net, nodes, texts, people, report)?;
    match write_whole(out, text.as_slice()) {
        Ok(()) => Ok(()),
        Err(fault) => Err(WriteRefusal::Fault(fault.written)),
    }
}
