//! The whole picture.
ghost use Rattle.std.specs.Prelude.{◌≡◌, ◌<◌, ◌^◌, flat_map, length, IfOk};
ghost use Rattle.std.specs.List.{range_with_len};
ghost use Rattle.reo_trace.specs.Passes.{numbered};
ghost use Rattle.reo_picture.specs.Buffer.{Adds};
ghost use Rattle.reo_picture.specs.Picture.{ended, opening, region_line, node_line, port_line, channel_line, picture_text};

use crate::lines::{port_line, push_channel, push_line, push_node, region_line};
use reo_cut::Cut;
use reo_net::{Channel, Net, Port};
use reo_value::Lexicon;
use std::alloc::{AllocError, Global};

fn push_opening(buffer: &mut Vec<u8>) -> Result<(), AllocError>
    ensures { Adds buffer.old buffer.new result (flat_map ended opening) }
{
    push_line(buffer, b"digraph circuit {")?;
    push_line(
        buffer,
        b"rankdir=LR; labeljust=l; fontname=\"sans-serif\"; fontsize=11",
    )?;
    push_line(
        buffer,
        b"node [shape=ellipse, width=0.4, height=0.4, margin=\"0.05,0.03\", style=filled, fillcolor=white, fontname=\"sans-serif\", fontsize=12]",
    )?;
    push_line(buffer, b"edge [fontname=\"sans-serif\", fontsize=10]")
}

fn push_region(alloc: Global, buffer: &mut Vec<u8>, region: u32) -> Result<(), AllocError>
    ensures { Adds buffer.old buffer.new result (ended (region_line region)) }
{
    let line = region_line(alloc, region)?;
    push_line(buffer, line.as_bytes())
}

fn push_regions(alloc: Global, buffer: &mut Vec<u8>, regions: u32) -> Result<(), AllocError>
    ensures { Adds buffer.old buffer.new result (flat_map (λ region. ended (region_line region)) (range_with_len 0 regions)) }
{
    for region in 0..regions {
        push_region(alloc, buffer, region)?;
    }
    Ok(())
}

fn push_nodes(
    alloc: Global,
    buffer: &mut Vec<u8>,
    net: &Net,
    nodes: &Lexicon,
    cut: &Cut,
) -> Result<(), AllocError>
    ensures { Adds buffer.old buffer.new result (flat_map (λ node. ended (node_line net.now nodes.now cut.now node)) (range_with_len 0 net.now.nodes)) }
{
    for node in 0..net.nodes() {
        push_node(alloc, buffer, net, nodes, cut, node)?;
    }
    Ok(())
}

fn push_port(alloc: Global, buffer: &mut Vec<u8>, number: u32, port: Port) -> Result<(), AllocError>
    ensures { Adds buffer.old buffer.new result (ended (port_line number port.way port.node)) }
{
    let line = port_line(alloc, number, port)?;
    push_line(buffer, line.as_bytes())
}

fn push_ports(alloc: Global, buffer: &mut Vec<u8>, ports: &[Port]) -> Result<(), AllocError>
    requires { length ports.now < 2 ^ 32 }
    ensures { Adds buffer.old buffer.new result (numbered (λ number port. ended (port_line number port.way port.node)) 0 ports.now) }
{
    for (number, port) in ports.iter().enumerate() {
        push_port(alloc, buffer, number as u32, *port)?;
    }
    Ok(())
}

fn push_channels(
    alloc: Global,
    buffer: &mut Vec<u8>,
    texts: &Lexicon,
    channels: &[Channel],
) -> Result<(), AllocError>
    requires { length channels.now < 2 ^ 32 }
    ensures { Adds buffer.old buffer.new result (numbered (λ number channel. ended (channel_line texts.now number channel)) 0 channels.now) }
{
    for (number, channel) in channels.iter().enumerate() {
        push_channel(alloc, buffer, texts, number as u32, channel)?;
    }
    Ok(())
}

/// The picture of a circuit that is cut into its regions, with these names of nodes and these texts, as text for Graphviz.
/// It takes memory in proportion to the text.
pub fn picture_of(
    alloc: Global,
    net: &Net,
    nodes: &Lexicon,
    texts: &Lexicon,
    cut: &Cut,
) -> Result<Vec<u8>, AllocError>
    ensures text { IfOk result (λ text. text.items ≡ picture_text net.now nodes.now texts.now cut.now) }
{
    let mut text = Vec::new(alloc);
    push_opening(&mut text)?;
    push_regions(alloc, &mut text, cut.regions)?;
    push_nodes(alloc, &mut text, net, nodes, cut)?;
    push_line(
        &mut text,
        b"node [shape=none, width=0, height=0]; edge [color=gray40, arrowhead=vee]",
    )?;
    push_ports(alloc, &mut text, net.ports())?;
    push_line(
        &mut text,
        b"node [shape=box, width=0.5, height=0.3]; edge [color=black, arrowhead=normal]",
    )?;
    push_channels(alloc, &mut text, texts, net.channels())?;
    push_line(&mut text, b"}")?;
    Ok(text)
}
