//! The links of a channel.
ghost use Rattle.std.specs.Prelude.{◌≡◌, ◌∷◌, ◌+◌, ◌<◌, ◌^◌, [], IfOk};
ghost use Rattle.reo_automata.specs.Links.{channel_links, link_of};

use crate::template::{Link, Rule, Template};
use reo_net::Kind;
use sqlite_items::Items;
use std::alloc::{AllocError, Global};

fn link(alloc: Global, fires: &[u32], rule: Rule) -> Result<Link, AllocError>
    ensures { IfOk result (λ link. link ≡ link_of fires.now rule) }
{
    let fires = Items::from_slice(alloc, fires)?;
    Ok(Link { fires, rule })
}

fn one(alloc: Global, first: Link) -> Result<Items<Link>, AllocError>
    ensures { IfOk result (λ links. links ≡ first ∷ []) }
{
    let mut links = Items::new(alloc);
    links.push(first)?;
    Ok(links)
}

fn two(alloc: Global, first: Link, second: Link) -> Result<Items<Link>, AllocError>
    ensures { IfOk result (λ links. links ≡ first ∷ second ∷ []) }
{
    let mut links = Items::new(alloc);
    links.push(first)?;
    links.push(second)?;
    Ok(links)
}

/// The links of a channel of this kind, by the name of its end a; end b is the next.
fn channel_links(alloc: Global, kind: &Kind, a: u32) -> Result<Items<Link>, AllocError>
    requires { a + 1 < 2 ^ 32 }
    ensures { IfOk result (λ links. links ≡ channel_links kind.now a) }
{
    let both = [a, a + 1];
    match kind {
        Kind::Sync => one(alloc, link(alloc, &both, Rule::Same)?),
        Kind::Lossy => two(
            alloc,
            link(alloc, &both, Rule::Same)?,
            link(alloc, &[a], Rule::Free)?,
        ),
        Kind::Drain => one(alloc, link(alloc, &both, Rule::Free)?),
        Kind::Fifo(_) => two(
            alloc,
            link(alloc, &[a], Rule::Store)?,
            link(alloc, &[a + 1], Rule::Emit)?,
        ),
        Kind::Filter(_) => two(
            alloc,
            link(alloc, &both, Rule::Pass)?,
            link(alloc, &[a], Rule::Lose)?,
        ),
        Kind::Transform(_) => one(alloc, link(alloc, &both, Rule::Image)?),
    }
}

pub fn channel_template(alloc: Global, kind: &Kind, a: u32) -> Result<Template, AllocError>
    requires { a + 1 < 2 ^ 32 }
    ensures { IfOk result (λ t. t ≡ record { names = a ∷ (a + 1) ∷ []; links = channel_links kind.now a }) }
{
    let names = Items::from_slice(alloc, &[a, a + 1])?;
    let links = channel_links(alloc, kind, a)?;
    Ok(Template { names, links })
}
