//! The lines, each appended to a buffer.
ghost use Rattle.std.specs.Prelude.{◌+◌, length, decimal};
ghost use Rattle.reo_outline.specs.Buffer.{Adds};
ghost use Rattle.reo_outline.specs.Texts.{AreTexts};
ghost use Rattle.reo_outline.specs.Outline.{firing_line, head_line, cell_line, port_line};

use crate::texts::{NameTexts, push_names};
use reo_cut::CellCut;
use reo_net::Net;
use reo_product::{Firing, RegionTable};
use reo_trace::{push_bytes, push_decimal, push_name};
use reo_value::Lexicon;
use std::alloc::AllocError;

/// Appends a number that counts from 0, counted from 1.
fn push_from_one(buffer: &mut Vec<u8>, number: u32) -> Result<(), AllocError>
    ensures { Adds buffer.old buffer.new result (decimal (number + 1)) }
{
    push_decimal(buffer, u64::from(number) + 1)
}

pub(crate) fn push_firing(
    buffer: &mut Vec<u8>,
    net: &Net,
    nodes: &Lexicon,
    texts: &NameTexts,
    firing: &Firing,
) -> Result<(), AllocError>
    requires { AreTexts net.now nodes.now texts.now }
    ensures { Adds buffer.old buffer.new result (firing_line net.now nodes.now firing.now) }
{
    push_bytes(buffer, b"firing")?;
    push_names(buffer, net, nodes, texts, firing.names.as_slice())?;
    push_bytes(buffer, b"\n")
}

/// Appends how many firings there are.
fn push_count(buffer: &mut Vec<u8>, table: &RegionTable) -> Result<(), AllocError>
    ensures { Adds buffer.old buffer.new result (decimal (length table.now.firings)) }
{
    push_decimal(buffer, table.firings.len() as u64)
}

/// Appends how many vertices grow.
fn push_growth(buffer: &mut Vec<u8>, table: &RegionTable) -> Result<(), AllocError>
    ensures { Adds buffer.old buffer.new result (decimal table.now.growth) }
{
    push_decimal(buffer, u64::from(table.growth))
}

pub(crate) fn push_head(
    buffer: &mut Vec<u8>,
    number: u32,
    automata: usize,
    table: &RegionTable,
) -> Result<(), AllocError>
    ensures { Adds buffer.old buffer.new result (head_line number automata table.now) }
{
    push_bytes(buffer, b"region ")?;
    push_from_one(buffer, number)?;
    push_bytes(buffer, b" automata ")?;
    push_decimal(buffer, automata as u64)?;
    push_bytes(buffer, b" firings ")?;
    push_count(buffer, table)?;
    push_bytes(buffer, b" growth ")?;
    push_growth(buffer, table)?;
    push_bytes(buffer, b"\n")
}

pub(crate) fn push_cell(buffer: &mut Vec<u8>, cell: CellCut) -> Result<(), AllocError>
    ensures { Adds buffer.old buffer.new result (cell_line cell) }
{
    push_bytes(buffer, b"cell ")?;
    push_from_one(buffer, cell.channel)?;
    push_bytes(buffer, b" from ")?;
    push_from_one(buffer, cell.filler)?;
    push_bytes(buffer, b" to ")?;
    push_from_one(buffer, cell.taker)?;
    push_bytes(buffer, b"\n")
}

pub(crate) fn push_port(
    buffer: &mut Vec<u8>,
    net: &Net,
    nodes: &Lexicon,
    number: u32,
    region: u32,
) -> Result<(), AllocError>
    ensures { Adds buffer.old buffer.new result (port_line net.now nodes.now number region) }
{
    push_bytes(buffer, b"port ")?;
    push_name(buffer, net, nodes, number)?;
    push_bytes(buffer, b" region ")?;
    push_from_one(buffer, region)?;
    push_bytes(buffer, b"\n")
}
