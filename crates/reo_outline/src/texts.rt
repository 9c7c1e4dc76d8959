//! The texts of a circuit's names, made once: names that follow one another have theirs side by side, so they are appended
//! at once.
ghost use Rattle.std.specs.Prelude.{◌≡◌, ◌≤◌, ◌∷◌, [], ◌++◌, length, flat_map, IfOk};
ghost use Rattle.reo_net.specs.Names.{name_count};
ghost use Rattle.reo_outline.specs.Buffer.{Adds};
ghost use Rattle.reo_outline.specs.Outline.{name_part};
ghost use Rattle.reo_outline.specs.Texts.{AreTexts, IsHeld, IsRun, names_of, run_text, texts_below};

use reo_net::Net;
use reo_trace::{push_bytes, push_name};
use reo_value::Lexicon;
use std::alloc::{AllocError, Global};

/// The texts of all names, each behind a blank, one behind the other; where each begins, and where the last ends.
#[derive(Drop)]
pub(crate) struct NameTexts {
    bytes: Vec<u8>,
    starts: Vec<usize>,
}

/// Names that follow one another, from the one number up to the one before the other.
#[derive(Clone, Copy)]
struct Run {
    from: usize,
    to: usize,
}

fn push_name_part(
    buffer: &mut Vec<u8>,
    net: &Net,
    nodes: &Lexicon,
    name: u32,
) -> Result<(), AllocError>
    ensures { Adds buffer.old buffer.new result (name_part net.now nodes.now name) }
{
    push_bytes(buffer, b" ")?;
    push_name(buffer, net, nodes, name)
}

/// The texts of all names of the circuit.
pub(crate) fn texts_of(alloc: Global, net: &Net, nodes: &Lexicon) -> Result<NameTexts, AllocError>
    ensures { IfOk result (AreTexts net.now nodes.now) }
{
    let mut bytes = Vec::new(alloc);
    let mut starts = vec![in alloc; 0usize]?;
    for name in 0..net.names() {
        push_name_part(&mut bytes, net, nodes, name)?;
        starts.push(bytes.len())?;
    }
    Ok(NameTexts { bytes, starts })
}

/// Appends the texts of names that follow one another, one by one.
fn push_each(buffer: &mut Vec<u8>, net: &Net, nodes: &Lexicon, run: Run) -> Result<(), AllocError>
    requires { IsRun run }
    ensures { Adds buffer.old buffer.new result (run_text net.now nodes.now run) }
{
    for name in run.from..run.to {
        push_name_part(buffer, net, nodes, name as u32)?;
    }
    Ok(())
}

/// Where the texts of names that follow one another begin and end.
fn place_of(net: &Net, nodes: &Lexicon, texts: &NameTexts, run: Run) -> Run
    requires texts { AreTexts net.now nodes.now texts.now }
    requires order { run.from ≤ run.to }
    requires within { run.to ≤ name_count net.now }
    ensures from { result.from ≡ length (texts_below net.now nodes.now run.from) }
    ensures to { result.to ≡ length (texts_below net.now nodes.now run.to) }
    ensures order { result.from ≤ result.to }
    ensures within { result.to ≤ length texts.now.bytes.items }
{
    let starts = texts.starts.as_slice();
    Run {
        from: starts[run.from],
        to: starts[run.to],
    }
}

/// Appends the texts of names that follow one another, at once where they are made.
fn push_run(
    buffer: &mut Vec<u8>,
    net: &Net,
    nodes: &Lexicon,
    texts: &NameTexts,
    run: Run,
) -> Result<(), AllocError>
    requires texts { AreTexts net.now nodes.now texts.now }
    requires run { IsRun run }
    ensures { Adds buffer.old buffer.new result (run_text net.now nodes.now run) }
{
    if run.to > net.names() as usize {
        return push_each(buffer, net, nodes, run);
    }
    let place = place_of(net, nodes, texts, run);
    push_bytes(buffer, &texts.bytes.as_slice()[place.from..place.to])
}

/// The names that are held back once another comes. Where it does not follow them, their texts are appended.
fn held_with(
    buffer: &mut Vec<u8>,
    net: &Net,
    nodes: &Lexicon,
    texts: &NameTexts,
    run: Run,
    name: u32,
) -> Result<Run, AllocError>
    requires texts { AreTexts net.now nodes.now texts.now }
    requires run { IsRun run }
    ensures run { IfOk result IsRun }
    ensures held { IfOk result (λ more. IsHeld net.now nodes.now buffer.old buffer.new more (names_of run ++ name ∷ [])) }
{
    let name = name as usize;
    if name == run.to {
        return Ok(Run {
            from: run.from,
            to: name + 1,
        });
    }
    push_run(buffer, net, nodes, texts, run)?;
    Ok(Run {
        from: name,
        to: name + 1,
    })
}

/// The run of no names, before the first name.
fn before(names: &[u32]) -> Run
    ensures run { IsRun result }
    ensures none { result.from ≡ result.to }
{
    match names.first() {
        Some(name) => Run {
            from: *name as usize,
            to: *name as usize,
        },
        None => Run { from: 0, to: 0 },
    }
}

/// Appends the texts of names.
pub(crate) fn push_names(
    buffer: &mut Vec<u8>,
    net: &Net,
    nodes: &Lexicon,
    texts: &NameTexts,
    names: &[u32],
) -> Result<(), AllocError>
    requires { AreTexts net.now nodes.now texts.now }
    ensures { Adds buffer.old buffer.new result (flat_map (name_part net.now nodes.now) names.now) }
{
    let mut run = before(names);
    for name in names {
        run = held_with(buffer, net, nodes, texts, run, *name)?;
    }
    push_run(buffer, net, nodes, texts, run)
}
