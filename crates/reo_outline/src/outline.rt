//! The whole text.
ghost use Rattle.std.specs.Prelude.{◌≡◌, ◌<◌, ◌^◌, ◌++◌, flat_map, length, IfOk};
ghost use Rattle.reo_trace.specs.Passes.{numbered};
ghost use Rattle.reo_outline.specs.Buffer.{Adds};
ghost use Rattle.reo_outline.specs.Counts.{AreCounts};
ghost use Rattle.reo_outline.specs.Texts.{AreTexts};
ghost use Rattle.reo_outline.specs.Outline.{firing_line, head_line, region_lines, cell_line, port_line, outline_text};

use crate::counts::automata_counts;
use crate::lines::{push_cell, push_firing, push_head, push_port};
use crate::texts::{NameTexts, texts_of};
use reo_cut::{CellCut, Cut};
use reo_net::Net;
use reo_product::{Firing, RegionTable};
use reo_trace::{push_bytes, push_decimal};
use reo_value::Lexicon;
use std::alloc::{AllocError, Global};

fn push_firings(
    buffer: &mut Vec<u8>,
    net: &Net,
    nodes: &Lexicon,
    texts: &NameTexts,
    firings: &[Firing],
) -> Result<(), AllocError>
    requires { AreTexts net.now nodes.now texts.now }
    ensures { Adds buffer.old buffer.new result (flat_map (firing_line net.now nodes.now) firings.now) }
{
    for firing in firings {
        push_firing(buffer, net, nodes, texts, firing)?;
    }
    Ok(())
}

fn push_region(
    buffer: &mut Vec<u8>,
    net: &Net,
    nodes: &Lexicon,
    texts: &NameTexts,
    number: u32,
    automata: usize,
    table: &RegionTable,
) -> Result<(), AllocError>
    requires { AreTexts net.now nodes.now texts.now }
    ensures { Adds buffer.old buffer.new result (head_line number automata table.now ++ flat_map (firing_line net.now nodes.now) table.now.firings) }
{
    push_head(buffer, number, automata, table)?;
    push_firings(buffer, net, nodes, texts, table.firings.as_slice())
}

/// Appends the lines of all regions, with how many automata each has.
fn push_regions(
    buffer: &mut Vec<u8>,
    net: &Net,
    nodes: &Lexicon,
    texts: &NameTexts,
    cut: &Cut,
    counts: &[usize],
    tables: &[RegionTable],
) -> Result<(), AllocError>
    requires texts { AreTexts net.now nodes.now texts.now }
    requires counts { AreCounts (length tables.now) cut.now.region_of counts.now }
    requires tables { length tables.now < 2 ^ 32 }
    ensures { Adds buffer.old buffer.new result (numbered (region_lines net.now nodes.now cut.now) 0 tables.now) }
{
    for (number, table) in tables.iter().enumerate() {
        push_region(
            buffer,
            net,
            nodes,
            texts,
            number as u32,
            counts[number],
            table,
        )?;
    }
    Ok(())
}

fn push_cells(buffer: &mut Vec<u8>, cells: &[CellCut]) -> Result<(), AllocError>
    ensures { Adds buffer.old buffer.new result (flat_map cell_line cells.now) }
{
    for cell in cells {
        push_cell(buffer, *cell)?;
    }
    Ok(())
}

fn push_ports(
    buffer: &mut Vec<u8>,
    net: &Net,
    nodes: &Lexicon,
    regions: &[u32],
) -> Result<(), AllocError>
    requires { length regions.now < 2 ^ 32 }
    ensures { Adds buffer.old buffer.new result (numbered (port_line net.now nodes.now) 0 regions.now) }
{
    for (number, region) in regions.iter().enumerate() {
        push_port(buffer, net, nodes, number as u32, *region)?;
    }
    Ok(())
}

/// The text that tells the regions of a circuit, with these names of nodes and these tables of its regions in their order.
/// It takes memory in proportion to the names of all firings.
pub fn outline_of(
    alloc: Global,
    net: &Net,
    nodes: &Lexicon,
    cut: &Cut,
    tables: &[RegionTable],
) -> Result<Vec<u8>, AllocError>
    requires tables { length tables.now < 2 ^ 32 }
    requires ports { length cut.now.port_region < 2 ^ 32 }
    ensures text { IfOk result (λ text. text.items ≡ outline_text net.now nodes.now cut.now tables.now) }
{
    let mut text = Vec::new(alloc);
    push_bytes(&mut text, b"regions ")?;
    push_decimal(&mut text, u64::from(cut.regions))?;
    push_bytes(&mut text, b"\n")?;
    let texts = texts_of(alloc, net, nodes)?;
    let counts = automata_counts(alloc, cut.region_of.as_slice(), tables.len())?;
    push_regions(
        &mut text,
        net,
        nodes,
        &texts,
        cut,
        counts.as_slice(),
        tables,
    )?;
    push_cells(&mut text, cut.cells.as_slice())?;
    push_ports(&mut text, net, nodes, cut.port_region.as_slice())?;
    Ok(text)
}
