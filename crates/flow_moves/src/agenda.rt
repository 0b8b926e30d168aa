//! Where something may be able to happen: a hint, which saves looking everywhere. Whoever takes a spot from it tests
//! it; and nothing rests on all such spots being on it.
ghost use Rattle.std.specs.Prelude.{◌≡◌, ◌<◌, IfSome, length};

use crate::next::{link_in_front, link_to_consume, link_to_offer};
use crate::parts::Parts;
use flow_block::{Block, Route};
use flow_link::{LinkId, LinkSource, LinkTarget, Move};
use std::alloc::{AllocError, Global};

/// A link or a block.
#[derive(Clone, Copy)]
pub enum Spot {
    Link(LinkId),
    Block(usize),
}

/// The spots to look at: where a message goes on, and then the newest first, each of these once.
#[derive(Drop)]
pub struct Agenda {
    next: Option<Spot>,
    spots: Vec<Spot>,
    has_link: Vec<bool>,
    has_block: Vec<bool>,
    /// Whether no report shows in which order the blocks took their turns.
    hides_turns: bool,
}

impl Agenda {
    ghost use Rattle.flow_moves.specs.Agendas.{spot_count};

    /// An agenda with all of so many links and blocks.
    pub fn new(
        alloc: Global,
        links: LinkId,
        blocks: usize,
        hides_turns: bool,
    ) -> Result<Agenda, AllocError> {
        let mut agenda = Agenda {
            next: None,
            spots: Vec::new(alloc),
            has_link: Vec::new(alloc),
            has_block: Vec::new(alloc),
            hides_turns,
        };
        for _ in 0..links {
            agenda.has_link.push(false)?;
        }
        for _ in 0..blocks {
            agenda.has_block.push(false)?;
        }
        agenda.spots.reserve(blocks.saturating_add(links as usize))?;
        agenda.list_all(links, blocks);
        Ok(agenda)
    }

    /// Whether no report shows in which order the blocks took their turns, but where one faults or the limit ends a run. It is a hint.
    #[inline(always)]
    pub fn hides_turns(&self) -> bool {
        self.hides_turns
    }

    /// Lists all of so many links and blocks.
    fn list_all(&mut self, links: LinkId, blocks: usize) {
        for number in 0..blocks {
            self.list(Spot::Block(number));
        }
        self.list_links(links);
    }

    fn list_links(&mut self, links: LinkId) {
        for id in 0..links {
            self.list(Spot::Link(id));
        }
    }

    /// Lists a spot, unless it is listed.
    pub fn list(&mut self, spot: Spot) {
        if self.mark(spot, true) {
            self.push(spot);
        }
    }

    /// Notes whether a spot is listed; false where that was so already.
    fn mark(&mut self, spot: Spot, listed: bool) -> bool
        ensures same_spots { self.new.spots ≡ self.old.spots }
    {
        match spot {
            Spot::Link(id) => set_mark(&mut self.has_link, id as usize, listed),
            Spot::Block(number) => set_mark(&mut self.has_block, number, listed),
        }
    }

    /// Puts a spot on top, where there is room.
    fn push(&mut self, spot: Spot) {
        if self.spots.len() < self.spots.capacity() {
            self.spots.push_reserved(spot);
        }
    }

    /// Has this spot looked at before all others.
    fn make_next(&mut self, spot: Spot) {
        if let Some(other) = self.next.take() {
            self.list(other);
        }
        self.next = Some(spot);
    }

    /// Takes the spot at which a message goes on.
    pub fn take_next(&mut self) -> Option<Spot> {
        self.next.take()
    }

    /// Takes the spot at which a message goes on, or else the newest.
    pub fn take_any(&mut self) -> Option<Spot> {
        match self.next.take() {
            Some(spot) => Some(spot),
            None => self.take(),
        }
    }

    /// Takes the newest spot off.
    pub fn take(&mut self) -> Option<Spot>
        ensures shorter { IfSome result (λ _. spot_count self.new < spot_count self.old) }
    {
        let spot = self.spots.pop()?;
        let _ = self.mark(spot, false);
        Some(spot)
    }

    /// Lists where something may be able to happen after a block has worked on a message. What it gives goes on, and then
    /// the block is listed as the giver.
    #[inline(always)]
    pub fn list_after_make(&mut self, parts: &Parts, number: usize) {
        if let Some(node) = parts.find_node(number) {
            let block = node.block();
            self.list_waiting(block);
            match link_to_offer(block) {
                Some(id) => self.make_next(Spot::Link(id)),
                None => self.list_inward(block, number),
            }
            self.list_copies(block);
        }
    }

    /// Lists where something may be able to happen after a message went over a link in one call: it goes on at the
    /// target.
    pub fn list_after_pass(&mut self, parts: &Parts, route: &Route, id: LinkId) {
        match route.source {
            LinkSource::Block(number) => self.list_giver(parts, number),
            LinkSource::Input(_) => self.list(Spot::Link(id)),
        }
        if let LinkTarget::Port(number, _) = route.target {
            self.list_copies_held_up(parts, number);
            self.make_next(Spot::Block(number));
        }
    }

    /// Lists a block that gave its head; and all links out of it where something waits over another: what waits for an
    /// earlier message is to be taken back.
    fn list_giver(&mut self, parts: &Parts, number: usize) {
        if let Some(node) = parts.find_node(number) {
            if node.block().away_count() > 0 {
                self.list_out(node.block());
            }
            self.list_block(node.block(), number);
        }
    }

    /// Lists a block that would do something by itself, and the links over which it would consume or offer next.
    fn list_block(&mut self, block: &Block, number: usize) {
        self.list_inward(block, number);
        if let Some(id) = link_to_offer(block) {
            self.make_next(Spot::Link(id));
        }
    }

    /// Lists a block that would do something by itself, and the link over which it would consume next.
    #[inline(always)]
    fn list_inward(&mut self, block: &Block, number: usize) {
        if has_work(block) {
            self.list(Spot::Block(number));
        }
        if let Some(id) = link_to_consume(block) {
            self.list(Spot::Link(id));
        }
    }

    /// Lists the blocks at the ends of a link for which this move opens something, and all links of one for which it
    /// opens more. Most moves open nothing but the next one of the link.
    pub fn list_after_move(&mut self, parts: &Parts, route: &Route, next: &Move) {
        if let LinkSource::Block(number) = route.source {
            self.list_source(parts, number, next);
        }
        if let LinkTarget::Port(number, _) = route.target {
            self.list_target(parts, number, next);
        }
    }

    /// Lists the source of a link after this move.
    fn list_source(&mut self, parts: &Parts, number: usize, next: &Move) {
        match next {
            Move::Offer(_) | Move::Want | Move::Consume | Move::Open => {}
            Move::Give => self.list_others(parts, number),
            Move::Close => {
                self.list_others(parts, number);
                self.list_copies_held_up(parts, number);
                self.list(Spot::Block(number));
            }
            Move::Withdraw => self.list(Spot::Block(number)),
            Move::Release => {
                self.list_giver(parts, number);
                self.list_copies_held_up(parts, number);
                self.list(Spot::Block(number));
            }
            _ => {
                self.list_copies_held_up(parts, number);
                self.list(Spot::Block(number));
            }
        }
    }

    /// Lists the target of a link after this move.
    fn list_target(&mut self, parts: &Parts, number: usize, next: &Move) {
        self.list_fronts(parts, number);
        match next {
            Move::Offer(_) | Move::Want | Move::Give | Move::Open => {}
            Move::End(_) | Move::Close => {
                self.list_held_up(parts, number);
                self.list(Spot::Block(number));
            }
            _ => self.list(Spot::Block(number)),
        }
    }

    /// Lists what a join that reserves may ask for, claim or release next: the offers that wait longest at its ports.
    fn list_fronts(&mut self, parts: &Parts, number: usize) {
        if let Some(node) = parts.find_node(number) {
            if node.round().reserves() {
                self.list_front_links(node.block());
            }
        }
    }

    /// Lists the links over which the offers came that wait longest at the ports of a block.
    fn list_front_links(&mut self, block: &Block) {
        for port in 0..block.port_count() {
            if let Some(id) = link_in_front(block, port) {
                self.list(Spot::Link(id));
            }
        }
    }

    /// Lists a block of which the next message may go over another link than the one that moved; and all links out of
    /// it where something waits over another: what waits for an earlier message is to be taken back.
    fn list_others(&mut self, parts: &Parts, number: usize) {
        if let Some(node) = parts.find_node(number) {
            if node.block().out_count() > 1 {
                self.list(Spot::Block(number));
            }
            if node.block().away_count() > 1 {
                self.list_out(node.block());
            }
        }
    }

    /// Lists what waits for a block with this number that ends.
    fn list_held_up(&mut self, parts: &Parts, number: usize) {
        if let Some(node) = parts.find_node(number) {
            self.list_waiting(node.block());
        }
    }

    /// Lists all links out of a block that would stop, but for what waits over them; and those into it, where its
    /// function has faulted.
    fn list_waiting(&mut self, block: &Block) {
        if block.away_count() > 0 && block.is_held_up() {
            self.list_out(block);
        }
        self.list_copies_waiting(block);
        if block.own_fault().is_some() {
            self.list_in(block);
        }
    }

    /// Lists what waits for a block with this number that copies, where that holds it up.
    fn list_copies_held_up(&mut self, parts: &Parts, number: usize) {
        if let Some(node) = parts.find_node(number) {
            self.list_copies_waiting(node.block());
        }
    }

    /// Lists all links over which a block copies, where what waits over them holds it up.
    fn list_copies_waiting(&mut self, block: &Block) {
        if block.copies().waiting_count() > 0 && block.is_copy_held_up() {
            self.list_copies(block);
        }
    }

    /// Lists all links of a block.
    pub fn list_round(&mut self, parts: &Parts, number: usize) {
        if let Some(node) = parts.find_node(number) {
            self.list_in(node.block());
            self.list_out(node.block());
        }
    }

    /// Lists all links out of a block.
    fn list_out(&mut self, block: &Block) {
        for place in 0..block.out_count() {
            self.list(Spot::Link(block.out_link(place)));
        }
        self.list_copies(block);
    }

    /// Lists all links over which a block copies its messages.
    fn list_copies(&mut self, block: &Block) {
        for end in block.copies().ends() {
            self.list(Spot::Link(end.link.rule.id));
        }
    }

    /// Lists all links into a block.
    fn list_in(&mut self, block: &Block) {
        for port in 0..block.port_count() {
            self.list_into(block, port);
        }
    }

    /// Lists all links into a port of a block.
    fn list_into(&mut self, block: &Block, port: usize)
        requires { port < length block.now.ports }
    {
        for place in 0..block.in_count(port) {
            self.list(Spot::Link(block.in_link(port, place)));
        }
    }
}

/// Whether a block that has made or given something would do more by itself.
fn has_work(block: &Block) -> bool {
    if block.port_count() == 0 {
        return false;
    }
    let holds = !block.waiting(0).is_empty();
    (holds && (block.may_make() || block.may_begin()))
        || (!block.is_idle() && block.next_end().is_some())
        || (block.is_pending() && block.next_fault().is_some())
        || (block.is_complete() && block.may_finish())
}

/// Sets the mark at this place; false where there is no such place, or it was so already.
fn set_mark(marks: &mut Vec<bool>, at: usize, value: bool) -> bool {
    if at >= marks.len() || marks[at] == value {
        return false;
    }
    marks[at] = value;
    true
}
