//! What was hardly meant in a network that is accepted.
ghost use Rattle.std.specs.Prelude.{IfSome};
ghost use Rattle.flow_hints.specs.Told.{AdmitsNoMore};

use crate::matching::belongs_together;
use crate::near::quoted;
use crate::sorts::{Faulting, Flow, faulting_step, flow_of};
use crate::ways::{Way, Ways, admits_no_more, is_any, port_count, ways_of};
use flow_link::{BlockDef, Plan};
use flow_spans::{Part, Places, Span, item_span, places_in};
use flow_value::{Step, Steps, When};
use std::alloc::{AllocError, Global};

/// The most warnings of one text.
const MOST_WARNINGS: usize = 100;

/// Something in a text that is accepted, and that was hardly meant so.
#[derive(Drop)]
pub struct Warning {
    /// Where it stands, in bytes of the text.
    pub span: Span,
    /// A sentence or more, on one line.
    pub message: String,
}

fn add_warning(warnings: &mut Vec<Warning>, span: Span, message: String) -> Result<(), AllocError> {
    if warnings.len() < MOST_WARNINGS {
        warnings.push(Warning { span, message })?;
    }
    Ok(())
}

// A plan, its text, and what may go through it.
#[derive(Clone, Copy)]
struct Look<'a, 'p> {
    alloc: Global,
    text: &'a str,
    places: &'a Places,
    ways: &'a Ways<'p>,
    flow: &'a Flow,
}

/// The warnings of the text of this plan, in the order of the text; at most a hundred.
pub fn warnings_of(
    alloc: Global,
    text: &str,
    plan: &Plan<Steps>,
) -> Result<Vec<Warning>, AllocError> {
    let places = places_in(alloc, text)?;
    let ways = ways_of(alloc, plan)?;
    let flow = flow_of(alloc, &ways)?;
    let look = Look {
        alloc,
        text,
        places: &places,
        ways: &ways,
        flow: &flow,
    };
    look.all_warnings()
}

impl<'a, 'p> Look<'a, 'p> {
    // All warnings, in the order of the text.
    fn all_warnings(&self) -> Result<Vec<Warning>, AllocError> {
        let mut warnings = Vec::new(self.alloc);
        for (number, block) in self.ways.blocks.iter().enumerate() {
            self.add_block(number, block, &mut warnings)?;
        }
        for way in &self.ways.ways {
            self.add_way(*way, &mut warnings)?;
        }
        warnings.sort_by_key(|warning| warning.span.start)?;
        Ok(warnings)
    }

    fn title(&self, block: usize) -> Result<String, AllocError> {
        match self.ways.block(block) {
            Some(found) => {
                let name = quoted(self.alloc, found.name.as_str())?;
                format!(in self.alloc; "block {block} {name}")
            }
            None => format!(in self.alloc; "block {block}"),
        }
    }

    fn span_of(&self, part: Part) -> Span {
        self.places.table(part).unwrap_or(Span::new(0, 0))
    }

    fn value_span(&self, part: Part, key: &str) -> Span {
        match self.places.value(part, key) {
            Some(span) => span,
            None => self.span_of(part),
        }
    }

    // What is to be said of a block.
    fn add_block(
        &self,
        number: usize,
        block: &BlockDef<Steps>,
        warnings: &mut Vec<Warning>,
    ) -> Result<(), AllocError> {
        let into = self.ways.into_block(self.alloc, number)?;
        let out = self.ways.out_of(self.alloc, number)?;
        if block.input {
            // an input is told of its end from outside, and has one port
        } else if into.is_empty() {
            self.add_nothing_in(number, warnings)?;
        } else {
            self.add_ports(number, block, into.as_slice(), warnings)?;
        }
        if out.is_empty() && !block.kind.gives_nothing() {
            self.add_nothing_out(number, warnings)?;
        }
        self.add_all_limited(number, out.as_slice(), warnings)?;
        self.add_matching(number, block, into.as_slice(), warnings)?;
        self.add_idle_lanes(number, block, warnings)?;
        self.add_faulting_step(number, block, warnings)
    }

    fn add_nothing_in(&self, block: usize, warnings: &mut Vec<Warning>) -> Result<(), AllocError> {
        let title = self.title(block)?;
        let message = format!(in self.alloc;
            "nothing leads into {title}: it is no input, and no link leads to it. It never completes."
        )?;
        add_warning(warnings, self.span_of(Part::Block(block)), message)
    }

    fn add_nothing_out(&self, block: usize, warnings: &mut Vec<Warning>) -> Result<(), AllocError> {
        let title = self.title(block)?;
        let what = if self.ways.copies(block) {
            "what it takes goes nowhere"
        } else {
            "what it makes stays there, and once it has made something it is never done"
        };
        let message = format!(in self.alloc; "nothing leads out of {title}: {what}.")?;
        add_warning(warnings, self.span_of(Part::Block(block)), message)
    }

    // Adds the ports to which no link leads, and those that are not surely told of the end.
    fn add_ports(
        &self,
        number: usize,
        block: &BlockDef<Steps>,
        into: &[Way],
        warnings: &mut Vec<Warning>,
    ) -> Result<(), AllocError> {
        let unit = block.kind.unit();
        let title = self.title(number)?;
        for port in 0..port_count(block) {
            let ways = self.to_port(into, port)?;
            if ways.is_empty() {
                self.add_open_port(number, port, unit.makes_groups(), warnings)?;
            } else if unit.makes_groups() {
                let whom = format!(in self.alloc; "port {port} of {title}")?;
                self.add_no_end(whom.as_str(), ways.as_slice(), warnings)?;
            }
        }
        // the end at one port may be enough for a join, and a write_once block needs none
        if unit.makes_groups() || unit.copies_one() {
            Ok(())
        } else {
            self.add_no_end(title.as_str(), into, warnings)
        }
    }

    // The links among these that lead to this port.
    fn to_port(&self, into: &[Way], port: u32) -> Result<Vec<Way>, AllocError> {
        let mut ways = Vec::new(self.alloc);
        for way in into {
            if way.port == port {
                ways.push(*way)?;
            }
        }
        Ok(ways)
    }

    // Adds that no link leads to a port of a block that makes groups of what comes, or else tuples.
    fn add_open_port(
        &self,
        block: usize,
        port: u32,
        makes_groups: bool,
        warnings: &mut Vec<Warning>,
    ) -> Result<(), AllocError> {
        let title = self.title(block)?;
        let what = if makes_groups {
            "its part of each row is empty, and the block never completes"
        } else {
            "without it there is no row"
        };
        let message = format!(in self.alloc; "no link leads to port {port} of {title}: {what}.")?;
        add_warning(warnings, self.span_of(Part::Block(block)), message)
    }

    // Adds that no end, or only one that may be cut, is handed on over these links to a block or a port.
    fn add_no_end(
        &self,
        whom: &str,
        into: &[Way],
        warnings: &mut Vec<Warning>,
    ) -> Result<(), AllocError> {
        let mut handing: Option<Way> = None;
        let mut limits = "a link with \"max\": once that is reached";
        for way in into {
            if !way.propagate {
                continue;
            }
            if way.max.is_none() {
                return Ok(());
            }
            if handing.is_some() {
                limits = "links with \"max\": once each has reached its own";
            } else {
                handing = Some(*way);
            }
        }
        if let Some(way) = handing {
            let message = format!(in self.alloc;
                "the end is handed on to {whom} only over {limits}, the block never completes."
            )?;
            let span = self.value_span(Part::Link(way.link), "max");
            return add_warning(warnings, span, message);
        }
        let Some(first) = into.first() else {
            return Ok(());
        };
        let message = format!(in self.alloc;
            "no link hands its end on to {whom}: without \"propagate = true\" at one the block never completes."
        )?;
        add_warning(warnings, self.span_of(Part::Link(first.link)), message)
    }

    // Adds that each link out of a block lets only some messages through.
    fn add_all_limited(
        &self,
        block: usize,
        out: &[Way],
        warnings: &mut Vec<Warning>,
    ) -> Result<(), AllocError> {
        let Some(first) = out.first() else {
            return Ok(());
        };
        let given = self.flow.out_of(block);
        if self.ways.copies(block) || admit_all(out, !given.texts && !given.rows) {
            return Ok(());
        }
        let title = self.title(block)?;
        let message = format!(in self.alloc;
            "each link out of {title} has a \"when\": a message that none of them admits stays there, and all behind it."
        )?;
        let span = self.value_span(Part::Link(first.link), "when");
        add_warning(warnings, span, message)
    }

    // Adds that a join matches by places what may not belong together.
    fn add_matching(
        &self,
        number: usize,
        block: &BlockDef<Steps>,
        into: &[Way],
        warnings: &mut Vec<Warning>,
    ) -> Result<(), AllocError> {
        if !block.kind.unit().makes_tuples() || into.is_empty() {
            return Ok(());
        }
        let ports = port_count(block);
        if belongs_together(self.alloc, self.ways, number, ports)? {
            return Ok(());
        }
        let title = self.title(number)?;
        let message = format!(in self.alloc;
            "{title} matches by order: the first message at each port makes the first row, whatever it says. There is no key."
        )?;
        add_warning(warnings, self.span_of(Part::Block(number)), message)
    }

    // Adds that a block has more lanes than it may ever have messages.
    fn add_idle_lanes(
        &self,
        number: usize,
        block: &BlockDef<Steps>,
        warnings: &mut Vec<Warning>,
    ) -> Result<(), AllocError> {
        let (Some(lanes), Some(capacity)) = (block.lanes, block.capacity) else {
            return Ok(());
        };
        if lanes <= capacity {
            return Ok(());
        }
        let title = self.title(number)?;
        let message = format!(in self.alloc;
            "{title} has {lanes} lanes and a capacity of {capacity}: no more than {capacity} are ever at work at one time."
        )?;
        let span = self.value_span(Part::Block(number), "lanes");
        add_warning(warnings, span, message)
    }

    // Adds the step of a function that faults at each value.
    fn add_faulting_step(
        &self,
        number: usize,
        block: &BlockDef<Steps>,
        warnings: &mut Vec<Warning>,
    ) -> Result<(), AllocError> {
        let Some(steps) = &block.work else {
            return Ok(());
        };
        let coming = self.flow.into_block(number);
        let Some(found) = faulting_step(steps.as_slice(), coming) else {
            return Ok(());
        };
        let title = self.title(number)?;
        let Faulting { at, step, sorts } = found;
        let why = match (step, sorts.most_items) {
            (Step::Field(item), Some(most)) if sorts.rows => format!(in self.alloc;
                "no row there has an item {item}, since items count from 0 and there are {most} at most"
            )?,
            _ => {
                let words = sorts.words();
                format!(in self.alloc; "it does not take {words}")?
            }
        };
        let message = format!(in self.alloc;
            "step {at} of {title} faults at each value that comes to it: {why}."
        )?;
        let work = self.value_span(Part::Block(number), "work");
        let item = item_span(self.alloc, self.text, work, at)?;
        add_warning(warnings, item.unwrap_or(work), message)
    }

    // What is to be said of a link, unless it is there for its end alone.
    fn add_way(&self, way: Way, warnings: &mut Vec<Warning>) -> Result<(), AllocError> {
        if self.only_hands_on(way) {
            return Ok(());
        }
        let given = self.flow.out_of(way.source);
        let link = way.link;
        if !is_any(way.when) && !given.numbers && !given.is_none() {
            let title = self.title(way.source)?;
            let words = given.words();
            let message = format!(in self.alloc;
                "nothing crosses link {link}: its \"when\" admits numbers alone, and {title} gives {words}."
            )?;
            let span = self.value_span(Part::Link(link), "when");
            return add_warning(warnings, span, message);
        }
        let Some(first) = self.takes_all_before(way) else {
            return Ok(());
        };
        let before = first.link;
        let message = format!(in self.alloc;
            "nothing crosses link {link} while link {before} is open: that one comes first and takes all that this one admits."
        )?;
        add_warning(warnings, self.span_of(Part::Link(link)), message)
    }

    // Whether a link may be there to hand its end on to a port that gets messages of the same source over another.
    fn only_hands_on(&self, way: Way) -> bool {
        for other in &self.ways.ways {
            let is_beside = other.source == way.source
                && other.target == way.target
                && other.port == way.port
                && other.link != way.link;
            if way.propagate && is_beside {
                return true;
            }
        }
        false
    }

    // A link of the same source in front of this one that takes, while it is open, all that this one admits.
    fn takes_all_before(&self, way: Way) -> Option<Way>
        ensures { IfSome result (λ first. AdmitsNoMore way.when first.when) }
    {
        if self.ways.copies(way.source) {
            return None;
        }
        for first in &self.ways.ways {
            let is_before = first.source == way.source
                && first.link < way.link
                && first.max.is_none()
                && self.ways.takes_at_once(first.target);
            if is_before && admits_no_more(way.when, first.when) {
                return Some(*first);
            }
        }
        None
    }
}

// Whether it is sure that each value is admitted by one of these links, or each number where numbers alone come.
fn admit_all(out: &[Way], are_numbers: bool) -> bool {
    let (mut even, mut odd) = (false, false);
    // the numbers below the one are admitted, and those from the other on
    let (mut below, mut from): (Option<i64>, Option<i64>) = (None, None);
    for way in out {
        match way.when {
            When::Any => return true,
            When::Even => even = true,
            When::Odd => odd = true,
            When::Lt(bound) => below = Some(bound.max(below.unwrap_or(bound))),
            When::Ge(bound) => from = Some(bound.min(from.unwrap_or(bound))),
            When::Eq(_) => {}
        }
    }
    let meet = match (below, from) {
        (Some(below), Some(from)) => from <= below,
        _ => false,
    };
    are_numbers && ((even && odd) || meet)
}
