//! The links of a plan: those of the draft, between the blocks that they name, and those from and to the caller.
ghost use Rattle.std.specs.Prelude.{◌≡◌, ◌≤◌, [], ◌∷◌, ◌++◌, cond, length, take, IfOk, OnOk, unwrap_or};
ghost use Rattle.flow_link.specs.Layout.{input_link, exit_link, input_links, exit_links, outer_links};
ghost use Rattle.flow_link.specs.Plan.{block_named, named_link, named_links, planned_links};
ghost use Rattle.flow_link.specs.PortsFit.{PortFits, PortsFit};

use crate::check::block_named;
use crate::draft::{BlockDef, LinkDef};
use crate::plan::{Link, LinkSource, LinkTarget, PortId};
use flow_value::When;
use std::alloc::{AllocError, Global};

/// What fills room in which no link stands yet.
pub const NO_LINK: Link = Link {
    source: LinkSource::Input(0),
    target: LinkTarget::Exit,
    when: When::Any,
    max: None,
    propagate: false,
};

/// Writes the links of the draft to the front of this room; a name that no block has counts as that of the first.
pub fn name_links<W>(blocks: &[BlockDef<W>], links: &[LinkDef], room: &mut [Link])
    requires room { length links.now ≤ length room.old }
    requires fit { PortsFit links.now }
    ensures named { take (length links.now) room.new ≡ named_links blocks.now links.now }
    ensures same_length { length room.new ≡ length room.old }
{
    for (place, link) in links.iter().enumerate() {
        room[place] = named_link(blocks, link);
    }
}

/// The links of the plan of a draft with these blocks and links.
pub fn planned_links<W>(
    alloc: Global,
    blocks: &[BlockDef<W>],
    links: &[LinkDef],
) -> Result<Vec<Link>, AllocError>
    requires { PortsFit links.now }
    ensures { IfOk result (λ planned. planned.items ≡ planned_links blocks.now links.now) }
{
    let mut planned = named_links(alloc, blocks, links)?;
    push_outer_links(blocks, &mut planned)?;
    Ok(planned)
}

/// The links of the draft; a name that no block has counts as that of the first.
fn named_links<W>(
    alloc: Global,
    blocks: &[BlockDef<W>],
    links: &[LinkDef],
) -> Result<Vec<Link>, AllocError>
    requires { PortsFit links.now }
    ensures { IfOk result (λ named. named.items ≡ named_links blocks.now links.now) }
{
    let mut named = Vec::new(alloc);
    for link in links {
        named.push(named_link(blocks, link))?;
    }
    Ok(named)
}

/// Puts the links of inputs and exits behind the others.
fn push_outer_links<W>(blocks: &[BlockDef<W>], links: &mut Vec<Link>) -> Result<(), AllocError>
    ensures { OnOk result (links.new.items ≡ links.old.items ++ outer_links blocks.now) }
{
    push_input_links(blocks, links)?;
    push_exit_links(blocks, links)
}

fn push_input_links<W>(blocks: &[BlockDef<W>], links: &mut Vec<Link>) -> Result<(), AllocError>
    ensures { OnOk result (links.new.items ≡ links.old.items ++ input_links 0 blocks.now) }
{
    for (place, block) in blocks.iter().enumerate() {
        push_where(links, block.input, input_link(place))?;
    }
    Ok(())
}

fn push_exit_links<W>(blocks: &[BlockDef<W>], links: &mut Vec<Link>) -> Result<(), AllocError>
    ensures { OnOk result (links.new.items ≡ links.old.items ++ exit_links 0 blocks.now) }
{
    for (place, block) in blocks.iter().enumerate() {
        push_where(links, block.output, exit_link(place))?;
    }
    Ok(())
}

/// Puts a link behind the others, or leaves it out.
fn push_where(links: &mut Vec<Link>, is_there: bool, link: Link) -> Result<(), AllocError>
    ensures { OnOk result (links.new.items ≡ links.old.items ++ cond is_there (link ∷ []) []) }
{
    if is_there {
        links.push(link)?;
    }
    Ok(())
}

fn named_link<W>(blocks: &[BlockDef<W>], link: &LinkDef) -> Link
    requires { PortFits link.now }
    ensures { result ≡ named_link blocks.now link.now }
{
    let source = block_named(blocks, link.from.as_str()).unwrap_or(0);
    let target = block_named(blocks, link.to.as_str()).unwrap_or(0);
    Link {
        source: LinkSource::Block(source),
        target: LinkTarget::Port(target, link.port.unwrap_or(0) as PortId),
        when: link.when.unwrap_or(When::Any),
        max: link.max,
        propagate: link.propagate,
    }
}

fn input_link(place: usize) -> Link
    ensures { result ≡ input_link place }
{
    Link {
        source: LinkSource::Input(place),
        target: LinkTarget::Port(place, 0),
        when: When::Any,
        max: None,
        propagate: true,
    }
}

fn exit_link(place: usize) -> Link
    ensures { result ≡ exit_link place }
{
    Link {
        source: LinkSource::Block(place),
        target: LinkTarget::Exit,
        when: When::Any,
        max: None,
        propagate: true,
    }
}
