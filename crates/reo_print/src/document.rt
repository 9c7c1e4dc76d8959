//! A whole document.
ghost use Rattle.std.specs.Prelude.{◌≡◌, flat_map, IfOk};
ghost use Rattle.std.specs.List.{filter_map};
ghost use Rattle.reo_document.specs.Document.{port_in};
ghost use Rattle.reo_document.specs.Spells.{Spells};
ghost use Rattle.reo_trace.specs.Passes.{numbered};
ghost use Rattle.reo_print.specs.Buffer.{Adds};
ghost use Rattle.reo_print.specs.Front.{AreFronts};
ghost use Rattle.reo_print.specs.Canonical.{circuit_line, operation_line, script_lines, canonical_text};

use crate::front::{Fronts, fronts_of};
use crate::line::{push_line, push_operation};
use reo_document::{Document, Line};
use reo_net::Port;
use reo_trace::{bytes_at, push_bytes};
use reo_value::{Lexicon, Op};
use sqlite_items::Items;
use std::alloc::{AllocError, Global};

fn push_lines(
    buffer: &mut Vec<u8>,
    nodes: &Lexicon,
    texts: &Lexicon,
    lines: &[Line],
) -> Result<(), AllocError>
    ensures { Adds buffer.old buffer.new result (flat_map (circuit_line nodes.now texts.now) lines.now) }
{
    for line in lines {
        push_line(buffer, nodes, texts, line)?;
    }
    Ok(())
}

fn push_operations(
    buffer: &mut Vec<u8>,
    fronts: &Fronts,
    nodes: &Lexicon,
    texts: &Lexicon,
    ports: &[Port],
    script: &[Op],
) -> Result<(), AllocError>
    requires { AreFronts nodes.now ports.now fronts.now }
    ensures { Adds buffer.old buffer.new result (flat_map (operation_line nodes.now texts.now ports.now) script.now) }
{
    for operation in script {
        push_operation(buffer, fronts, nodes, texts, ports, *operation)?;
    }
    Ok(())
}

// The lines of the component of this number.
fn push_script(
    buffer: &mut Vec<u8>,
    fronts: &Fronts,
    document: &Document,
    ports: &[Port],
    number: usize,
    script: &[Op],
) -> Result<(), AllocError>
    requires ports { ports.now ≡ filter_map port_in document.now.lines }
    requires fronts { AreFronts document.now.nodes ports.now fronts.now }
    ensures { Adds buffer.old buffer.new result (script_lines document.now number script.now) }
{
    push_bytes(buffer, b"component ")?;
    push_bytes(buffer, bytes_at(document.people(), number))?;
    push_bytes(buffer, b"\n")?;
    push_operations(
        buffer,
        fronts,
        document.nodes(),
        document.texts(),
        ports,
        script,
    )
}

fn push_scripts(
    buffer: &mut Vec<u8>,
    fronts: &Fronts,
    document: &Document,
    ports: &[Port],
    scripts: &[Items<Op>],
) -> Result<(), AllocError>
    requires ports { ports.now ≡ filter_map port_in document.now.lines }
    requires fronts { AreFronts document.now.nodes ports.now fronts.now }
    ensures { Adds buffer.old buffer.new result (numbered (script_lines document.now) 0 scripts.now) }
{
    for (number, script) in scripts.iter().enumerate() {
        push_script(buffer, fronts, document, ports, number, script.as_slice())?;
    }
    Ok(())
}

/// The canonical text of a document.
pub fn print_document(alloc: Global, document: &Document) -> Result<Vec<u8>, AllocError>
    ensures canonical { IfOk result (λ text. text.items ≡ canonical_text document.now) }
    ensures again { IfOk result (λ text. Spells text.items document.now) }
{
    let ports = document.ports(alloc)?;
    let fronts = fronts_of(alloc, document.nodes(), ports.as_slice())?;
    let mut text = Vec::new(alloc);
    push_lines(
        &mut text,
        document.nodes(),
        document.texts(),
        document.lines(),
    )?;
    push_scripts(
        &mut text,
        &fronts,
        document,
        ports.as_slice(),
        document.scripts(),
    )?;
    Ok(text)
}
