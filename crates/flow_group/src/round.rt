//! The round of a join that reserves.
//!
//! It asks for the offer that waits longest at each port, one after another, in the order of the blocks from which they come.
//! Once all are kept for it, it claims all; where an offer in front has gone, it gives up what is kept for it, and asks anew.
ghost use Rattle.std.specs.Prelude.{◌≡◌, ◌<◌, ◌==◌, length, position, Some};
ghost use Rattle.std.specs.List.{list_all};
ghost use Rattle.flow_group.specs.declared.round.Source.{Source};
ghost use Rattle.flow_intake.specs.Calls.{is_postponed};
ghost use Rattle.flow_intake.specs.Port.{is_holding, link_in};
ghost use Rattle.flow_group.specs.Round.{no_round, reserves, block_at, source_of, is_behind, front_stage, front_source, is_asking, none_comes, all_there};
ghost use Rattle.flow_group.specs.Round.{all_held, none_asking, all_open, all_have_room, may_ask, asks_for, comes_first, step_after};
ghost use Rattle.flow_group.specs.Round.{settles, claims_on, held_move, move_by, round_move, port_in};
ghost use Rattle.flow_group.specs.declared.round.RoundStep.TheVariants as steps;

use flow_intake::Intake;
use flow_link::{LinkId, Move, TargetStage};
use std::alloc::Global;
use std::marker::Model;

/// What a join that reserves does with what it asks for.
#[derive(Clone, Copy, Drop, Eq, PartialEq)]
pub enum RoundStep {
    /// It asks its sources to keep a message for it, one after another.
    Asks,
    /// An offer in front has gone: it gives up what is kept for it.
    Releases,
    /// A message of each port is kept for it: it claims them.
    Claims,
}

/// A link into a join that reserves, and the number of the block from which it comes.
#[derive(Clone, Copy, Drop, Eq, PartialEq)]
pub struct Source {
    /// The link.
    pub link: LinkId,
    /// The block.
    pub block: usize,
}

/// How far a join that reserves has come; of another block, nothing. Contracts see a `RoundState`.
#[derive(Drop)]
pub struct Round {
    sources: Vec<Source>,
    step: RoundStep,
}

impl Model for Round {
    ghost use Rattle.flow_group.specs.Round.{RoundState};

    ghost Value = { RoundState };

    ghost view = { λ r. record { sources = r.sources.items; step = r.step } };
}

impl Round {
    /// That of a block that reserves nothing.
    pub fn none(alloc: Global) -> Round
        ensures { result ≡ no_round }
    {
        Round::new(Vec::new(alloc))
    }

    /// That of a join into which these links lead, before it has asked for anything.
    pub fn new(sources: Vec<Source>) -> Round
        ensures { result ≡ record { sources = sources.items; step = steps.Asks } }
    {
        Round {
            sources,
            step: RoundStep::Asks,
        }
    }

    /// Whether the block reserves.
    pub fn reserves(&self) -> bool
        ensures { result ≡ reserves self.now }
    {
        !self.sources.is_empty()
    }

    /// What it does now.
    pub fn step(&self) -> RoundStep
        ensures { result ≡ self.now.step }
    {
        self.step
    }

    /// What the end at this place of a port does next for the round, if anything: it asks, claims or gives up.
    pub fn next(&self, ports: &[Intake], port: usize, place: usize) -> Option<Move>
        requires { port < length ports.now }
        ensures { result ≡ round_move port place self.now ports.now }
    {
        if !self.reserves() || ports[port].front() != Some(place) {
            return None;
        }
        match front_stage(&ports[port]) {
            TargetStage::Postponed(_) if self.may_ask(ports, port) => Some(Move::Ask),
            TargetStage::Holding(_) => self.held_move(ports),
            _ => None,
        }
    }

    // what it does with a message that is kept for it
    fn held_move(&self, ports: &[Intake]) -> Option<Move>
        ensures { result ≡ held_move self.now.step (all_held ports.now) }
    {
        match self.step {
            RoundStep::Asks if all_held(ports) => Some(Move::Claim),
            RoundStep::Asks => None,
            RoundStep::Releases => Some(Move::Release),
            RoundStep::Claims => Some(Move::Claim),
        }
    }

    // whether it may ask for the offer in front of this port
    fn may_ask(&self, ports: &[Intake], port: usize) -> bool
        requires { port < length ports.now }
        ensures { result ≡ asks_for (port_in ports.now port) self.now ports.now }
    {
        self.step == RoundStep::Asks && may_ask(ports) && self.comes_first(ports, port)
    }

    // whether no other offer in front that still waits comes from a block with a smaller number
    fn comes_first(&self, ports: &[Intake], port: usize) -> bool
        requires { port < length ports.now }
        ensures { result ≡ comes_first self.now.sources (port_in ports.now port) ports.now }
    {
        let own = self.front_source(&ports[port]);
        self.all_behind(own, ports)
    }

    fn all_behind(&self, own: usize, ports: &[Intake]) -> bool
        ensures { result ≡ list_all (is_behind self.now.sources own) ports.now }
    {
        ports.iter().all(|other| self.is_behind(own, other))
    }

    // whether the offer in front of this port does not wait, or comes from no block before this one
    fn is_behind(&self, own: usize, other: &Intake) -> bool
        ensures { result ≡ is_behind self.now.sources own other.now }
    {
        !is_postponed(front_stage(other)) || own <= self.front_source(other)
    }

    // the block from which the offer in front of a port comes
    fn front_source(&self, port: &Intake) -> usize
        ensures { result ≡ front_source self.now.sources port.now }
    {
        match port.front() {
            Some(place) => self.source_of(link_at(port, place)),
            None => 0,
        }
    }

    fn source_of(&self, link: LinkId) -> usize
        ensures { result ≡ source_of link self.now.sources }
    {
        match self.place_of(link) {
            Some(place) => block_at(&self.sources, place),
            None => 0,
        }
    }

    fn place_of(&self, link: LinkId) -> Option<usize>
        ensures { result ≡ position (λ (source : Source). source.link == link) self.now.sources }
    {
        self.sources.iter().position(|source| source.link == link)
    }

    /// The round goes on with these ports: the offer in front of one of them has gone, other than by a claim, or none has.
    pub fn settle(&mut self, gone: bool, ports: &[Intake])
        ensures { self.new ≡ settles gone ports.now self.old }
    {
        if !self.reserves() {
            return;
        }
        let none = none_comes(ports);
        self.step = match self.step {
            RoundStep::Asks if gone && !none => RoundStep::Releases,
            RoundStep::Asks => RoundStep::Asks,
            RoundStep::Releases if none => RoundStep::Asks,
            RoundStep::Releases => RoundStep::Releases,
            RoundStep::Claims if none => RoundStep::Asks,
            RoundStep::Claims => RoundStep::Claims,
        };
    }

    /// It claims from now on.
    pub fn claim(&mut self)
        ensures { self.new ≡ claims_on self.old }
    {
        self.step = RoundStep::Claims;
    }
}

/// Whether no message comes into these ports.
pub fn none_comes(ports: &[Intake]) -> bool
    ensures { result ≡ none_comes ports.now }
{
    ports.iter().all(|port| port.coming() == 0)
}

// whether one more offer may be asked for: each port has one, the last one asked for is kept, and where the round begins no port
// has ended
fn may_ask(ports: &[Intake]) -> bool
    ensures { result ≡ may_ask ports.now }
{
    all_there(ports)
        && none_asking(ports)
        && (!none_comes(ports) || all_open(ports))
        && all_have_room(ports)
}

fn all_there(ports: &[Intake]) -> bool
    ensures { result ≡ all_there ports.now }
{
    ports.iter().all(|port| port.front().is_some())
}

fn all_held(ports: &[Intake]) -> bool
    ensures { result ≡ all_held ports.now }
{
    ports.iter().all(|port| is_holding(front_stage(port)))
}

fn none_asking(ports: &[Intake]) -> bool
    ensures { result ≡ none_asking ports.now }
{
    ports.iter().all(|port| !is_asking(front_stage(port)))
}

fn all_open(ports: &[Intake]) -> bool
    ensures { result ≡ all_open ports.now }
{
    ports.iter().all(|port| port.is_open())
}

fn all_have_room(ports: &[Intake]) -> bool
    ensures { result ≡ all_have_room ports.now }
{
    ports
        .iter()
        .all(|port| is_holding(front_stage(port)) || port.has_room())
}

// where the end stands whose offer is in front
fn front_stage(port: &Intake) -> TargetStage
    ensures { result ≡ front_stage port.now }
{
    match port.front() {
        Some(place) if place < port.link_count() => port.stage(place),
        Some(_) | None => TargetStage::Free,
    }
}

// the block of the source at a place; of no source, the first block
fn block_at(sources: &[Source], place: usize) -> usize
    ensures { result ≡ block_at sources.now (Some place) }
{
    match sources.get(place) {
        Some(source) => source.block,
        None => 0,
    }
}

// the link of the end at a place; of no end, the first link
fn link_at(port: &Intake, place: usize) -> LinkId
    ensures { result ≡ link_in place port.now.ends }
{
    if place < port.link_count() {
        port.link(place)
    } else {
        0
    }
}

fn is_postponed(stage: TargetStage) -> bool
    ensures { result ≡ is_postponed stage }
{
    matches!(stage, TargetStage::Postponed(_))
}

fn is_holding(stage: TargetStage) -> bool
    ensures { result ≡ is_holding stage }
{
    matches!(stage, TargetStage::Holding(_))
}

fn is_asking(stage: TargetStage) -> bool
    ensures { result ≡ is_asking stage }
{
    matches!(stage, TargetStage::Asking(_))
}
