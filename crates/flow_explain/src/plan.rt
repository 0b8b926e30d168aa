//! Flaws of a network as a whole, which make it no plan.
use crate::circle::circle;
use crate::finding::{Flaw, add_flaw, is_full};
use crate::hint::{Hint, near_or};
use crate::keys::{Form, kind_word, knows, plural};
use crate::network::Network;
use crate::options::{OPTIONS, allows, is_name, needed, range_of};
use crate::shape::{fits, is_misspelt};
use flow_fault_text::TextFault;
use flow_hints::quoted;
use flow_link::{BlockKind, Place, PlanFault};
use flow_spans::Part;
use std::alloc::{AllocError, Global};
use std::fmt;

/// The most blocks, and the most links.
const MOST_BLOCKS: usize = 256;

const MOST_LINKS: usize = 1_024;

/// The blocks between which a link leads, as far as they are there.
#[derive(Clone, Copy)]
pub(crate) struct Ends {
    pub(crate) source: Option<usize>,
    pub(crate) target: Option<usize>,
}

/// Adds the flaws for which a network is no plan.
pub(crate) fn add_plan_flaws(
    alloc: Global,
    network: Network<'_>,
    flaws: &mut Vec<Flaw>,
) -> Result<(), AllocError> {
    if add_limit_flaws(alloc, network, flaws)? {
        return Ok(());
    }
    let names = all_names(alloc, network)?;
    add_name_flaws(alloc, network, names.as_slice(), flaws)
}

// Adds the flaws of a network whose blocks have these names.
fn add_name_flaws(
    alloc: Global,
    network: Network<'_>,
    names: &[Option<&str>],
    flaws: &mut Vec<Flaw>,
) -> Result<(), AllocError> {
    for block in 0..network.block_count() {
        add_double_name(alloc, network, names, block, flaws)?;
    }
    let ends = all_ends(alloc, network, names)?;
    add_end_flaws(alloc, network, names, ends.as_slice(), flaws)
}

// Adds the flaws of a network whose links have these ends.
fn add_end_flaws(
    alloc: Global,
    network: Network<'_>,
    names: &[Option<&str>],
    ends: &[Ends],
    flaws: &mut Vec<Flaw>,
) -> Result<(), AllocError> {
    if knows_names(alloc, network, names)? {
        for (link, ends) in ends.iter().enumerate() {
            add_unknown_blocks(alloc, network, names, link, *ends, flaws)?;
        }
    }
    for (link, ends) in ends.iter().enumerate() {
        add_port_flaw(alloc, network, link, ends.target, flaws)?;
    }
    for (link, ends) in ends.iter().enumerate() {
        add_no_output(alloc, network, link, ends.source, flaws)?;
    }
    add_all_options(alloc, network, flaws)?;
    for block in 0..network.block_count() {
        add_small_capacity(alloc, network, block, flaws)?;
    }
    for block in 0..network.block_count() {
        add_shared_source(alloc, network, ends, block, flaws)?;
    }
    add_circle(alloc, network, ends, flaws)
}

// Adds the names and options of blocks and links that are none, or are out of range.
fn add_all_options(
    alloc: Global,
    network: Network<'_>,
    flaws: &mut Vec<Flaw>,
) -> Result<(), AllocError> {
    for block in 0..network.block_count() {
        add_bad_name(alloc, network, block, flaws)?;
        add_option_flaws(alloc, network, block, flaws)?;
    }
    for link in 0..network.link_count() {
        add_range_flaw(alloc, network, Part::Link(link), "max", flaws)?;
    }
    Ok(())
}

// Adds that there are too many blocks or links, and answers whether there are.
fn add_limit_flaws(
    alloc: Global,
    network: Network<'_>,
    flaws: &mut Vec<Flaw>,
) -> Result<bool, AllocError> {
    let blocks = Part::Block(MOST_BLOCKS);
    let many_blocks = add_limit_flaw(alloc, network, network.block_count(), blocks, flaws)?;
    let links = Part::Link(MOST_LINKS);
    let many_links = add_limit_flaw(alloc, network, network.link_count(), links, flaws)?;
    Ok(many_blocks || many_links)
}

// Adds that there are too many parts of a sort, where this is the first beyond the most, and answers whether there are.
fn add_limit_flaw(
    alloc: Global,
    network: Network<'_>,
    count: usize,
    beyond: Part,
    flaws: &mut Vec<Flaw>,
) -> Result<bool, AllocError> {
    let most = match beyond {
        Part::Top => 1,
        Part::Block(most) | Part::Link(most) => most,
    };
    if count <= most {
        return Ok(false);
    }
    let parts = plural(beyond);
    add_flaw(
        alloc,
        flaws,
        TextFault::Plan(PlanFault::Limit),
        network.span_of(beyond),
        format_args!("there are {count} {parts}, and {most} at most."),
    )?;
    Ok(true)
}

fn bad_block(block: usize) -> TextFault {
    TextFault::Plan(PlanFault::BadOption(Place::Block(block)))
}

// Adds that a name is there twice.
fn add_double_name(
    alloc: Global,
    network: Network<'_>,
    names: &[Option<&str>],
    block: usize,
    flaws: &mut Vec<Flaw>,
) -> Result<(), AllocError> {
    let Some(name) = network.name_of(block) else {
        return Ok(());
    };
    let other = named(names, name).unwrap_or(block);
    if other >= block {
        return Ok(());
    }
    let shown = quoted(alloc, name)?;
    add_flaw(
        alloc,
        flaws,
        TextFault::Plan(PlanFault::DuplicateName(block)),
        network.value_span(Part::Block(block), "name"),
        format_args!("block {block} is named {shown}, as block {other} is."),
    )
}

// Adds that a name is none.
fn add_bad_name(
    alloc: Global,
    network: Network<'_>,
    block: usize,
    flaws: &mut Vec<Flaw>,
) -> Result<(), AllocError> {
    let Some(name) = network.name_of(block) else {
        return Ok(());
    };
    if is_name(name) {
        return Ok(());
    }
    let shown = quoted(alloc, name)?;
    add_flaw(
        alloc,
        flaws,
        bad_block(block),
        network.value_span(Part::Block(block), "name"),
        format_args!(
            "{shown} is no name: a name has 1 to 64 letters, digits, \"_\", \"-\" and \".\"."
        ),
    )
}

// The first block that has this name.
fn named(names: &[Option<&str>], name: &str) -> Option<usize> {
    for (block, other) in names.iter().enumerate() {
        match other {
            Some(other) if *other == name => return Some(block),
            Some(_) | None => {}
        }
    }
    None
}

// Whether the names of all blocks that are meant are known. One without a name, or under another key, may be any.
fn knows_names(
    alloc: Global,
    network: Network<'_>,
    names: &[Option<&str>],
) -> Result<bool, AllocError> {
    for name in names {
        if name.is_none() {
            return Ok(false);
        }
    }
    let Some(blocks) = network.value(Part::Top, "block") else {
        return Ok(false);
    };
    Ok(fits(Form::Tables, blocks) && !is_misspelt(alloc, network, Part::Top, "block")?)
}

// Adds the options that a block has and its kind has not, that it lacks, and that are out of range.
fn add_option_flaws(
    alloc: Global,
    network: Network<'_>,
    block: usize,
    flaws: &mut Vec<Flaw>,
) -> Result<(), AllocError> {
    let Some(kind) = network.kind_of(block) else {
        return Ok(());
    };
    for option in OPTIONS {
        add_option_flaw(alloc, network, block, kind, option, flaws)?;
    }
    add_needed(alloc, network, block, kind, flaws)
}

fn add_option_flaw(
    alloc: Global,
    network: Network<'_>,
    block: usize,
    kind: BlockKind,
    option: &str,
    flaws: &mut Vec<Flaw>,
) -> Result<(), AllocError> {
    let part = Part::Block(block);
    if !has_option(network, part, option) {
        return Ok(());
    }
    if allows(kind, option) {
        return add_range_flaw(alloc, network, part, option, flaws);
    }
    let title = network.title(part);
    let kind = kind_word(kind);
    add_flaw(
        alloc,
        flaws,
        bad_block(block),
        network.key_span(part, option),
        format_args!("{title} is {kind}, which has no {option:?}."),
    )
}

// Whether a part has an option; an input that is false is none.
fn has_option(network: Network<'_>, part: Part, option: &str) -> bool {
    if option == "input" {
        network.flag_at(part, option)
    } else {
        network.value(part, option).is_some()
    }
}

// Adds that a block lacks what its kind needs, unless it has a key that may stand for it.
fn add_needed(
    alloc: Global,
    network: Network<'_>,
    block: usize,
    kind: BlockKind,
    flaws: &mut Vec<Flaw>,
) -> Result<(), AllocError> {
    let part = Part::Block(block);
    let Some(option) = needed(kind) else {
        return Ok(());
    };
    if has_option(network, part, option) || has_unknown_key(network, part) {
        return Ok(());
    }
    let title = network.title(part);
    let kind = kind_word(kind);
    add_flaw(
        alloc,
        flaws,
        bad_block(block),
        network.span_of(part),
        format_args!("{title} is {kind}, and lacks {option:?}."),
    )
}

fn has_unknown_key(network: Network<'_>, part: Part) -> bool {
    let Some(table) = network.table(part) else {
        return false;
    };
    for key in table.keys() {
        if !knows(part, key.as_str()) {
            return true;
        }
    }
    false
}

// Adds that a number is out of the range of its option.
fn add_range_flaw(
    alloc: Global,
    network: Network<'_>,
    part: Part,
    option: &str,
    flaws: &mut Vec<Flaw>,
) -> Result<(), AllocError> {
    let Some((low, high)) = range_of(option) else {
        return Ok(());
    };
    let Some(number) = network.count_at(part, option) else {
        return Ok(());
    };
    let place = match part {
        Part::Top => return Ok(()),
        Part::Block(block) => Place::Block(block),
        Part::Link(link) => Place::Link(link),
    };
    if low <= number && number <= high {
        return Ok(());
    }
    let title = network.title(part);
    add_flaw(
        alloc,
        flaws,
        TextFault::Plan(PlanFault::BadOption(place)),
        network.value_span(part, option),
        format_args!("{option:?} of {title} is {number}, and is to be {low} to {high}."),
    )
}

fn add_small_capacity(
    alloc: Global,
    network: Network<'_>,
    block: usize,
    flaws: &mut Vec<Flaw>,
) -> Result<(), AllocError> {
    let part = Part::Block(block);
    let Some(BlockKind::Batch) = network.kind_of(block) else {
        return Ok(());
    };
    let (Some(capacity), Some(size)) = (
        network.count_at(part, "capacity"),
        network.count_at(part, "size"),
    ) else {
        return Ok(());
    };
    if capacity >= size {
        return Ok(());
    }
    let title = network.title(part);
    add_flaw(
        alloc,
        flaws,
        TextFault::Plan(PlanFault::CapacityBelowSize(block)),
        network.value_span(part, "capacity"),
        format_args!("{title} has room for {capacity} messages, and its groups have {size}."),
    )
}

// Adds that one block leads to two ports of a join that reserves, at the first link that makes it so.
fn add_shared_source(
    alloc: Global,
    network: Network<'_>,
    ends: &[Ends],
    block: usize,
    flaws: &mut Vec<Flaw>,
) -> Result<(), AllocError> {
    if !is_reserving(network, block) {
        return Ok(());
    }
    let Some((first, second)) = shared_links(network, ends, block) else {
        return Ok(());
    };
    let part = Part::Link(second);
    let title = network.title(Part::Block(block));
    let source = quoted(alloc, network.text_at(part, "from").unwrap_or(""))?;
    add_flaw(
        alloc,
        flaws,
        TextFault::Plan(PlanFault::SharedSource(block)),
        network.value_span(part, "from"),
        format_args!(
            "links {first} and {second} lead from {source} to two ports of {title}, which reserves: each port needs sources of its own."
        ),
    )
}

// Whether a block is a join that is not greedy.
fn is_reserving(network: Network<'_>, block: usize) -> bool {
    let greedy = match network.value(Part::Block(block), "greedy") {
        Some(value) => value.as_bool(),
        None => None,
    };
    match network.kind_of(block) {
        Some(kind) => kind.unit().reserves(greedy),
        None => false,
    }
}

// The first link from a block that another link leads from, too, to another port of this block; that one comes first.
fn shared_links(network: Network<'_>, ends: &[Ends], block: usize) -> Option<(usize, usize)> {
    for second in 0..ends.len() {
        if let Some(first) = shared_before(network, ends, block, second) {
            return Some((first, second));
        }
    }
    None
}

// The first link in front of this one that leads from its source to another port of this block.
fn shared_before(
    network: Network<'_>,
    ends: &[Ends],
    block: usize,
    second: usize,
) -> Option<usize> {
    let source = source_into(*ends.get(second)?, block)?;
    let port = port_of(network, second);
    for (first, other) in ends.iter().enumerate().take(second) {
        match source_into(*other, block) {
            Some(found) if found == source && port_of(network, first) != port => return Some(first),
            Some(_) | None => {}
        }
    }
    None
}

// The source of a link that leads to this block.
fn source_into(ends: Ends, block: usize) -> Option<usize> {
    match ends.target {
        Some(target) if target == block => ends.source,
        Some(_) | None => None,
    }
}

// The port to which a link leads.
fn port_of(network: Network<'_>, link: usize) -> u32 {
    network.count_at(Part::Link(link), "port").unwrap_or(0)
}

// The names of all blocks, in order, as far as they are texts.
fn all_names<'t>(alloc: Global, network: Network<'t>) -> Result<Vec<Option<&'t str>>, AllocError> {
    let mut names = Vec::new(alloc);
    for block in 0..network.block_count() {
        names.push(network.name_of(block))?;
    }
    Ok(names)
}

// The ends of all links.
fn all_ends(
    alloc: Global,
    network: Network<'_>,
    names: &[Option<&str>],
) -> Result<Vec<Ends>, AllocError> {
    let mut all = Vec::new(alloc);
    for link in 0..network.link_count() {
        all.push(Ends {
            source: end_of(network, names, link, "from"),
            target: end_of(network, names, link, "to"),
        })?;
    }
    Ok(all)
}

fn end_of(network: Network<'_>, names: &[Option<&str>], link: usize, end: &str) -> Option<usize> {
    named(names, network.text_at(Part::Link(link), end)?)
}

// Adds that a link names no block.
fn add_unknown_blocks(
    alloc: Global,
    network: Network<'_>,
    names: &[Option<&str>],
    link: usize,
    ends: Ends,
    flaws: &mut Vec<Flaw>,
) -> Result<(), AllocError> {
    if ends.source.is_none() {
        add_unknown_block(alloc, network, names, link, "from", flaws)?;
    }
    if ends.target.is_none() {
        add_unknown_block(alloc, network, names, link, "to", flaws)?;
    }
    Ok(())
}

// Adds that a link leaves a block that gives nothing.
fn add_no_output(
    alloc: Global,
    network: Network<'_>,
    link: usize,
    source: Option<usize>,
    flaws: &mut Vec<Flaw>,
) -> Result<(), AllocError> {
    let Some(source) = source else {
        return Ok(());
    };
    let Some(BlockKind::Action) = network.kind_of(source) else {
        return Ok(());
    };
    let title = network.title(Part::Block(source));
    add_flaw(
        alloc,
        flaws,
        TextFault::Plan(PlanFault::NoOutput(link)),
        network.value_span(Part::Link(link), "from"),
        format_args!("link {link} comes from {title}, which is an action and gives nothing."),
    )
}

fn add_unknown_block(
    alloc: Global,
    network: Network<'_>,
    names: &[Option<&str>],
    link: usize,
    end: &str,
    flaws: &mut Vec<Flaw>,
) -> Result<(), AllocError> {
    let part = Part::Link(link);
    let Some(name) = network.text_at(part, end) else {
        return Ok(());
    };
    if is_full(flaws) {
        return Ok(());
    }
    let leads = if end == "from" {
        "comes from"
    } else {
        "leads to"
    };
    let hint = known_name(alloc, name, names)?;
    let shown = quoted(alloc, name)?;
    add_flaw(
        alloc,
        flaws,
        TextFault::Plan(PlanFault::UnknownBlock(link)),
        network.value_span(part, end),
        format_args!("link {link} {leads} {shown}, and no block has that name.{hint}"),
    )
}

// Which of these names may have been meant.
fn known_name<'t>(
    alloc: Global,
    name: &str,
    names: &[Option<&'t str>],
) -> Result<Hint<'t>, AllocError> {
    let mut known = Vec::new(alloc);
    for name in names {
        if let Some(name) = name {
            known.push(*name)?;
        }
    }
    near_or(alloc, name, known.as_slice(), Hint::Words(""))
}

fn add_port_flaw(
    alloc: Global,
    network: Network<'_>,
    link: usize,
    target: Option<usize>,
    flaws: &mut Vec<Flaw>,
) -> Result<(), AllocError> {
    let part = Part::Link(link);
    let Some(target) = target else {
        return Ok(());
    };
    let Some(kind) = network.kind_of(target) else {
        return Ok(());
    };
    let port = port_of(network, link);
    let ports = network.count_at(Part::Block(target), "ports");
    let count = kind.unit().port_count(ports);
    if port < count {
        return Ok(());
    }
    let title = network.title(Part::Block(target));
    let ports = Ports(count);
    add_flaw(
        alloc,
        flaws,
        TextFault::Plan(PlanFault::Port(link)),
        network.value_span(part, "port"),
        format_args!("link {link} leads to port {port} of {title}, which has {ports}."),
    )
}

// So many ports, as they are told.
#[derive(Clone, Copy)]
struct Ports(u32);

impl fmt::Display for Ports {
    fn fmt<W: fmt::Write>(&self, f: &mut fmt::Formatter<W>) -> fmt::Result {
        match self.0.checked_sub(1) {
            None => f.write_str("no port"),
            Some(0) => f.write_str("port 0 alone"),
            Some(last) => write!(f, "ports 0 to {last}"),
        }
    }
}

// Adds that links lead in a circle, at one of them.
fn add_circle(
    alloc: Global,
    network: Network<'_>,
    ends: &[Ends],
    flaws: &mut Vec<Flaw>,
) -> Result<(), AllocError> {
    let links = circle(alloc, network.block_count(), ends)?;
    match links.first() {
        Some(first) => add_way_round(alloc, network, links.as_slice(), *first, flaws),
        None => Ok(()),
    }
}

// Adds that these links lead in a circle, at the first of them.
fn add_way_round(
    alloc: Global,
    network: Network<'_>,
    links: &[usize],
    first: usize,
    flaws: &mut Vec<Flaw>,
) -> Result<(), AllocError> {
    let mut way = String::new(alloc);
    for link in links {
        add_step_of_way(alloc, network, *link, " to ", &mut way)?;
    }
    add_step_of_way(alloc, network, first, "", &mut way)?;
    add_flaw(
        alloc,
        flaws,
        TextFault::Plan(PlanFault::Cycle),
        network.span_of(Part::Link(first)),
        format_args!("messages could go round for ever: {way}."),
    )
}

// Adds the block from which a link comes, and what stands behind it.
fn add_step_of_way(
    alloc: Global,
    network: Network<'_>,
    link: usize,
    behind: &str,
    way: &mut String,
) -> Result<(), AllocError> {
    let from = network.text_at(Part::Link(link), "from").unwrap_or("");
    let shown = quoted(alloc, from)?;
    write!(way, "{shown}{behind}")
}
