//! One block, and what can be asked of it.
ghost use Rattle.std.specs.Prelude.{◌≡◌, ◌<◌, ◌^◌, true, length, MatchResult};
ghost use Rattle.flow_intake.specs.Calls.{first_of, in_move, next_place};
ghost use Rattle.flow_intake.specs.Port.{link_in};
ghost use Rattle.flow_outlet.specs.End.{count_at, is_away};
ghost use Rattle.flow_outlet.specs.Outlet.{out_move, end_at, stage_at, may_offer};
ghost use Rattle.flow_block.specs.Block.{port_at};
ghost use Rattle.flow_block.specs.BlockFits.{fresh_block};
ghost use Rattle.flow_block.specs.JournalFits.{copies_due, marks_due};
ghost use Rattle.flow_block.specs.Peeks.{holds_nothing};

use crate::copies::exits_of;
use crate::jobs::Jobs;
use crate::ports::ports_due;
use flow_intake::Intake;
use flow_link::{BlockKind, LinkId, Move, Outcome, SourceStage};
use flow_outlet::{LinkRule, Outlet};
use flow_spread::Spread;
use flow_value::Value;
use std::alloc::Global;
use std::collections::VecDeque;
use std::marker::Model;

/// A block: its ports, its exits, and what it made.
///
/// Contracts see a `BlockState`. Its calls name an end of a link by its place: that of a link into the block by the
/// number of its port, and the place there.
#[derive(Drop)]
pub struct Block {
    pub(crate) kind: BlockKind,
    /// How many messages a batch makes a row of.
    pub(crate) size: u32,
    pub(crate) ports: Vec<Intake>,
    pub(crate) exits: Outlet,
    /// What it copies to its links, if its kind copies; else it has no links there.
    pub(crate) copies: Spread,
    pub(crate) jobs: Jobs,
    /// The results that an action keeps.
    pub(crate) recorded: Vec<Value>,
    /// The fault of its own function.
    pub(crate) fault: Option<u32>,
    pub(crate) stopped: Option<Outcome>,
}

impl Model for Block {
    ghost use Rattle.std.specs.Coded.{codes};
    ghost use Rattle.flow_value.specs.contracts.value.Value as content;
    ghost use Rattle.flow_block.specs.Block.{BlockState};
    ghost use Rattle.flow_block.specs.BlockFits.{BlockFits};
    ghost use Rattle.flow_block.specs.Copies.{copies_weight};

    ghost Value = { BlockState };

    ghost coded = { Prim.hlevel (codes, content.the_row.coded) };

    ghost view = { λ b. record {
      kind = b.kind;
      size = b.size;
      ports = b.ports.items;
      exits = b.exits;
      copies = b.copies;
      jobs = b.jobs;
      recorded = b.recorded.items;
      fault = b.fault;
      stopped = b.stopped;
    } };

    ghost invariant = { λ b. BlockFits b.ports.items b.exits (copies_weight b.copies) };
}

impl Block {
    /// A block of this kind with so many lanes, and with rows of so many messages if it is a batch, with these ports, at
    /// which nothing waits, and with these links out of it. Its messages are counted from 1 on. Where there is no memory
    /// for it, its parts come back.
    pub fn new(
        alloc: Global,
        kind: BlockKind,
        lanes: usize,
        size: u32,
        ports: Vec<Intake>,
        rules: Vec<LinkRule>,
    ) -> Result<Block, (Vec<Intake>, Vec<LinkRule>)>
        requires { holds_nothing ports.items ≡ true }
        ensures { MatchResult result (λ block. block ≡ fresh_block kind lanes size ports.items rules.items)
            (λ back. (back.0 ≡ ports) × (back.1 ≡ rules)) }
    {
        match exits_of(alloc, kind, rules) {
            Ok((exits, copies)) => Ok(Block {
                kind,
                size,
                ports,
                exits,
                copies,
                jobs: Jobs::new(alloc, lanes),
                recorded: Vec::new(alloc),
                fault: None,
                stopped: None,
            }),
            Err(rules) => Err((ports, rules)),
        }
    }

    /// What it does with its messages.
    pub fn kind(&self) -> BlockKind
        ensures { result ≡ self.now.kind }
    {
        self.kind
    }

    /// How many ports it has.
    pub fn port_count(&self) -> usize
        ensures { result ≡ length self.now.ports }
    {
        self.ports.len()
    }

    /// Its ports, in order: what each has put off, and how much room it has.
    pub fn ports(&self) -> &[Intake]
        ensures { result.now ≡ self.now.ports }
    {
        &self.ports
    }

    /// How many links lead into a port.
    pub fn in_count(&self, port: usize) -> usize
        requires { port < length self.now.ports }
        ensures { result ≡ length (port_at port self.now).ends }
    {
        self.ports[port].link_count()
    }

    /// How many links lead out of it.
    pub fn out_count(&self) -> usize
        ensures { result ≡ length self.now.exits.ends }
    {
        self.exits.ends().len()
    }

    /// The link into a port whose end has this place.
    pub fn in_link(&self, port: usize, place: usize) -> LinkId
        requires port { port < length self.now.ports }
        requires place { place < length (port_at port self.now).ends }
        ensures { result ≡ link_in place (port_at port self.now).ends }
    {
        self.ports[port].link(place)
    }

    /// The link out of it whose end has this place.
    pub fn out_link(&self, place: usize) -> LinkId
        requires { place < length self.now.exits.ends }
        ensures { result ≡ (end_at self.now.exits place).rule.id }
    {
        self.exits.ends()[place].rule.id
    }

    /// Where the end of the link out of it at this place stands.
    pub fn out_stage(&self, place: usize) -> SourceStage
        requires { place < length self.now.exits.ends }
        ensures { result ≡ stage_at self.now.exits place }
    {
        self.exits.ends()[place].stage
    }

    /// What it took at a port and has not worked on, oldest first.
    pub fn waiting(&self, port: usize) -> &VecDeque<Value>
        requires { port < length self.now.ports }
        ensures { result.now.items ≡ (port_at port self.now).waiting }
    {
        self.ports[port].waiting()
    }

    /// What it has to give, oldest first.
    pub fn left(&self) -> &VecDeque<Value>
        ensures { result.now.items ≡ self.now.exits.left }
    {
        self.exits.left()
    }

    /// What it copies to its links, if its kind copies.
    pub fn copies(&self) -> &Spread
        ensures { result.now ≡ self.now.copies }
    {
        &self.copies
    }

    /// The results that it keeps, if it is an action.
    pub fn recorded(&self) -> &[Value]
        ensures { result.now ≡ self.now.recorded }
    {
        self.recorded.as_slice()
    }

    /// The fault of its own function on the message that waits longest, once that is known.
    pub fn own_fault(&self) -> Option<u32>
        ensures { result ≡ self.now.fault }
    {
        self.fault
    }

    /// How it ended, once it has.
    pub fn stopped(&self) -> Option<Outcome>
        ensures { result ≡ self.now.stopped }
    {
        self.stopped
    }

    /// How many marks may follow from what memory is set aside for: a message that is taken, and a head that is given.
    #[inline(always)]
    pub(crate) fn marks_due(&self) -> usize
        requires { marks_due self.now < 2 ^ 64 }
        ensures { result ≡ marks_due self.now }
    {
        ports_due(&self.ports) + usize::from(self.exits.is_ready()) + self.copies_due()
    }

    /// Over how many links the element may still be given.
    fn copies_due(&self) -> usize
        requires { copies_due self.now.copies < 2 ^ 64 }
        ensures { result ≡ copies_due self.now.copies }
    {
        self.copies.busy_count() + self.copies.waiting_count()
    }

    /// The place of the link over which the head would be offered next.
    pub fn offer_place(&self) -> Option<usize>
        ensures { result ≡ may_offer self.now.exits }
    {
        self.exits.may_offer()
    }

    /// The place of the link over which a port would consume next what it postponed.
    pub fn next_place(&self, port: usize) -> Option<usize>
        requires { port < length self.now.ports }
        ensures { result ≡ next_place (port_at port self.now) }
    {
        self.ports[port].next_place()
    }

    /// The place of the link over which the offer came that waits longest at a port.
    pub fn front(&self, port: usize) -> Option<usize>
        requires { port < length self.now.ports }
        ensures { result ≡ first_of (port_at port self.now).queue }
    {
        self.ports[port].front()
    }

    /// Over how many links out of it something is under way, or waits there.
    pub fn away_count(&self) -> usize
        ensures { result ≡ count_at is_away self.now.exits.ends }
    {
        self.exits.away_count()
    }

    /// What the end of a link into it would do next.
    pub fn in_move(&self, port: usize, place: usize) -> Option<Move>
        requires port { port < length self.now.ports }
        requires place { place < length (port_at port self.now).ends }
        ensures { result ≡ in_move place (port_at port self.now) }
    {
        self.ports[port].in_move(place)
    }

    /// What the end of a link out of it would do next. The caller tells whether the block would fault but for offers
    /// that wait.
    #[inline(always)]
    pub(crate) fn out_move(&self, place: usize, held_up: bool) -> Option<Move>
        requires { place < length self.now.exits.ends }
        ensures { result ≡ out_move place self.now.stopped held_up self.now.exits }
    {
        self.exits.out_move(place, self.stopped, held_up)
    }
}
