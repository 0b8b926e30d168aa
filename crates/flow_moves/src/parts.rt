//! All blocks, inputs, exits and links of a network, and what a move of a link makes of them.
ghost use Rattle.std.specs.Prelude.{◌≡◌, ℕ, ◌<◌, true, false, length, drop, List, Result, OnOk, OnErr, IfOk, option_map, Some};
ghost use Rattle.flow_value.specs.declared.value.Value.{Value};
ghost use Rattle.flow_intake.specs.Calls.{first_of};
ghost use Rattle.flow_core.specs.Events.{is_of_source, with_line};
ghost use Rattle.flow_core.specs.State.{node_at, line_at};
ghost use Rattle.flow_moves.specs.Calls.{handed, left_in_slot, slot_after_source};
ghost use Rattle.flow_moves.specs.Ready.{SourceIsThere, TargetIsThere, SourceIsReady, TargetIsReady, IsThere, IsReady};
ghost use Rattle.flow_exit.specs.Exit.{ExitCall, after_exit};
ghost use Rattle.flow_moves.specs.Ways.{exit_in, input_in, with_exit_in, source_next, target_next, lacks_id, value_next};
ghost use Rattle.flow_moves.specs.Ways.{source_moved, target_moved, source_looked, target_looked, looked_along, moved_along};
ghost use Rattle.flow_moves.specs.Ways.{moved_by_source, moved_by_target};

use crate::ends::{look_exit, move_exit, move_exit_end, move_in, move_input, next_of_exit};
use flow_block::{Node, Route};
use flow_exit::ExitEnd;
use flow_input::Input;
use flow_link::{LinkId, LinkSource, LinkState, LinkTarget, Move, Phase, SourceStage};
use flow_value::{Parcel, Value};
use std::alloc::{AllocError, Global};
use std::marker::Model;

/// All blocks and links by their numbers, all inputs in the order of their blocks, and all exits in the order of their links.
/// Contracts see a `NetState`.
#[derive(Drop)]
pub struct Parts {
    pub(crate) nodes: Vec<Node>,
    pub(crate) inputs: Vec<Input>,
    pub(crate) exits: Vec<ExitEnd>,
    pub(crate) lines: Vec<LinkState>,
}

impl Model for Parts {
    ghost use Rattle.std.specs.Coded.{codes};
    ghost use Rattle.flow_value.specs.contracts.value.Value as content;
    ghost use Rattle.flow_link.specs.contracts.trace.Mark as mark;
    ghost use Rattle.flow_core.specs.State.{NetState};

    ghost Value = { NetState };

    ghost coded = { Prim.hlevel (codes, mark.the_row.coded, content.the_row.coded) };

    ghost view = { λ p. record {
      nodes = p.nodes.items;
      inputs = p.inputs.items;
      exits = p.exits.items;
      lines = p.lines.items;
    } };
}

impl Parts {
    /// A network of these blocks, inputs, exits and links.
    pub fn new(
        nodes: Vec<Node>,
        inputs: Vec<Input>,
        exits: Vec<ExitEnd>,
        lines: Vec<LinkState>,
    ) -> Parts
        ensures { result ≡ record { nodes = nodes.items; inputs = inputs.items; exits = exits.items; lines = lines.items } }
    {
        Parts {
            nodes,
            inputs,
            exits,
            lines,
        }
    }

    /// The block with this number.
    pub fn node(&self, number: usize) -> &Node
        requires { number < length self.now.nodes }
        ensures { result.now ≡ node_at self.now number }
    {
        &self.nodes[number]
    }

    /// The block with this number, if there is one.
    pub fn find_node(&self, number: usize) -> Option<&Node>
        ensures { option_map (λ node. node.now) result ≡ first_of (drop number self.now.nodes) }
    {
        self.nodes.get(number)
    }

    /// The input at this place among all inputs.
    pub fn input(&self, place: usize) -> &Input
        requires { place < length self.now.inputs }
        ensures { result.now ≡ input_in self.now place }
    {
        &self.inputs[place]
    }

    /// The input at this place among all inputs, if there is one.
    pub fn find_input(&self, place: usize) -> Option<&Input>
        ensures { option_map (λ input. input.now) result ≡ first_of (drop place self.now.inputs) }
    {
        self.inputs.get(place)
    }

    /// The exit at this place among all exits.
    pub fn exit(&self, place: usize) -> &ExitEnd
        requires { place < length self.now.exits }
        ensures { result.now ≡ exit_in self.now place }
    {
        &self.exits[place]
    }

    /// The exit at this place among all exits, if there is one.
    pub fn find_exit(&self, place: usize) -> Option<&ExitEnd>
        ensures { option_map (λ exit. exit.now) result ≡ first_of (drop place self.now.exits) }
    {
        self.exits.get(place)
    }

    /// A receive waits at the exit at this place, or none does any more.
    pub fn ask(&mut self, place: usize, waits: bool)
        requires { place < length self.old.exits }
        ensures { self.new ≡ with_exit_in place (after_exit (ExitCall.ask waits)) self.old }
    {
        let exit = &mut self.exits[place];
        if waits {
            exit.ask();
        } else {
            exit.ask_no_more();
        }
    }

    /// Hands out the message that is kept at the exit at this place, if any.
    pub fn receive_at(&mut self, place: usize) -> Result<Option<Value>, AllocError>
        requires { place < length self.old.exits }
        ensures gives { IfOk result (λ value. value ≡ (exit_in self.old place).kept) }
        ensures done { OnOk result (self.new ≡ with_exit_in place (after_exit ExitCall.receive) self.old) }
        ensures kept { OnErr result (self.new ≡ self.old) }
    {
        self.exits[place].receive()
    }

    /// How far the message over this link has come.
    pub fn phase(&self, id: LinkId) -> Phase
        requires { id < length self.now.lines }
        ensures { result ≡ (line_at self.now id).phase }
    {
        self.lines[id as usize].phase
    }

    /// What the source's end of a link would do next; an input that has no id left for its next value does nothing.
    #[inline(always)]
    pub fn next_of_source(&self, route: &Route) -> Option<Move>
        requires { SourceIsThere self.now route.now.source route.now.source_place }
        ensures next { lacks_id self.now route.now.source route.now.source_place ≡ false →
            result ≡ source_next self.now route.now.source route.now.source_place }
    {
        match route.source {
            LinkSource::Block(block) => next_of_exit(&self.nodes[block], route.source_place),
            LinkSource::Input(_) => self.inputs[route.source_place].next_move(),
        }
    }

    /// Whether the source of a link is an input with a next value for which no id is left.
    #[inline(always)]
    pub fn lacks_id(&self, route: &Route) -> bool
        requires { SourceIsThere self.now route.now.source route.now.source_place }
        ensures { result ≡ lacks_id self.now route.now.source route.now.source_place }
    {
        match route.source {
            LinkSource::Block(_) => false,
            LinkSource::Input(_) => {
                let input = &self.inputs[route.source_place];
                input.stage() == SourceStage::Free && input.lacks_id()
            }
        }
    }

    /// What the target's end of a link would do next.
    pub fn next_of_target(&self, route: &Route) -> Option<Move>
        requires { TargetIsThere self.now route.now.target route.now.target_place }
        ensures { result ≡ target_next self.now route.now.target route.now.target_place }
    {
        match route.target {
            LinkTarget::Port(block, port) => {
                self.nodes[block].next_in(port as usize, route.target_place)
            }
            LinkTarget::Exit => self.exits[route.target_place].next_move(),
        }
    }

    /// An end of a link makes its next move, which leads to this phase, and the other end looks. Where memory is out,
    /// nothing has changed.
    pub fn move_along(
        &mut self,
        alloc: Global,
        id: LinkId,
        route: &Route,
        next: Move,
        phase: Phase,
    ) -> Result<(), AllocError>
        requires there { IsThere self.old id route.now }
        requires ready { IsReady self.old id route.now next }
        ensures done { OnOk result ((makes : ℕ → Value → Result (List Value) ℕ) →
            self.new ≡ moved_along makes (is_of_source next) id next phase route.now self.old) }
        ensures kept { OnErr result (self.new ≡ self.old) }
    {
        if is_of_source(&next) {
            self.move_by_source(alloc, id, route, next, phase)
        } else {
            self.move_by_target(id, route, next, phase)
        }
    }

    /// The source's end of a link makes its move, which leads to this phase, and the target looks.
    fn move_by_source(
        &mut self,
        alloc: Global,
        id: LinkId,
        route: &Route,
        next: Move,
        phase: Phase,
    ) -> Result<(), AllocError>
        requires turn { is_of_source next ≡ true }
        requires there { IsThere self.old id route.now }
        requires ready { SourceIsReady next self.old route.now.source route.now.source_place }
        ensures done { OnOk result ((makes : ℕ → Value → Result (List Value) ℕ) →
            self.new ≡ moved_by_source makes id next phase route.now self.old) }
        ensures kept { OnErr result (self.new ≡ self.old) }
    {
        let given = self.move_source(alloc, route, next)?;
        self.pass_line(id, &next, &phase, given);
        self.target_looks(route, phase);
        Ok(())
    }

    /// The target's end of a link makes its move, which leads to this phase, and the source looks.
    fn move_by_target(
        &mut self,
        id: LinkId,
        route: &Route,
        next: Move,
        phase: Phase,
    ) -> Result<(), AllocError>
        requires turn { is_of_source next ≡ false }
        requires there { IsThere self.old id route.now }
        requires ready { TargetIsReady id next self.old route.now.target route.now.target_place }
        ensures done { OnOk result ((makes : ℕ → Value → Result (List Value) ℕ) →
            self.new ≡ moved_by_target makes id next phase route.now self.old) }
        ensures kept { OnErr result (self.new ≡ self.old) }
    {
        self.move_target(id, route, next, &phase)?;
        self.source_looks(route, phase);
        Ok(())
    }

    /// The source of a link moves, which leads to this phase; this is the parcel that it hands over, if it does.
    pub(crate) fn pass_line(
        &mut self,
        id: LinkId,
        next: &Move,
        phase: &Phase,
        given: Option<Parcel>,
    )
        requires { id < length self.old.lines }
        ensures { self.new ≡ with_line id (record {
          phase = phase.now;
          slot = slot_after_source next.now given
              (line_at self.old id).slot;
        }) self.old }
    {
        let line = &mut self.lines[id as usize];
        line.phase = *phase;
        if *next == Move::Give {
            line.slot = given;
        }
    }

    /// The source's end of a link makes its move: the parcel that it hands over, if it does.
    fn move_source(
        &mut self,
        alloc: Global,
        route: &Route,
        next: Move,
    ) -> Result<Option<Parcel>, AllocError>
        requires there { SourceIsThere self.old route.now.source route.now.source_place }
        requires ready { SourceIsReady next self.old route.now.source route.now.source_place }
        ensures done { OnOk result ((makes : ℕ → Value → Result (List Value) ℕ) →
            self.new ≡ source_moved makes next route.now.source route.now.source_place self.old) }
        ensures given { IfOk result (λ given. given ≡
            handed next (value_next self.old route.now.source route.now.source_place)) }
        ensures kept { OnErr result (self.new ≡ self.old) }
    {
        match route.source {
            LinkSource::Block(block) => move_exit(
                &mut self.nodes[block],
                alloc,
                route.source_place,
                next,
            ),
            LinkSource::Input(_) => move_input(&mut self.inputs[route.source_place], alloc, next),
        }
    }

    /// The target's end of a link makes its move, which leads to this phase, and takes what lies in the slot if it
    /// opens it.
    fn move_target(
        &mut self,
        id: LinkId,
        route: &Route,
        next: Move,
        phase: &Phase,
    ) -> Result<(), AllocError>
        requires line { id < length self.old.lines }
        requires there { TargetIsThere self.old route.now.target route.now.target_place }
        requires ready { TargetIsReady id next self.old route.now.target route.now.target_place }
        ensures done { OnOk result ((makes : ℕ → Value → Result (List Value) ℕ) →
            self.new ≡ with_line id (record { phase = phase.now; slot = left_in_slot next (line_at self.old id).slot })
            (target_moved makes next (line_at self.old id).slot route.now.target route.now.target_place self.old)) }
        ensures kept { OnErr result (self.new ≡ self.old) }
    {
        match route.target {
            LinkTarget::Port(block, port) => {
                let node = &mut self.nodes[block];
                let line = &mut self.lines[id as usize];
                move_in(node, port, route.target_place, &mut line.slot, next)?;
                line.phase = *phase;
            }
            LinkTarget::Exit => {
                let exit = &mut self.exits[route.target_place];
                let line = &mut self.lines[id as usize];
                move_exit_end(exit, &mut line.slot, next);
                line.phase = *phase;
            }
        }
        Ok(())
    }

    /// Both ends of a link look at its phase.
    pub fn look_along(&mut self, id: LinkId, route: &Route)
        requires { IsThere self.old id route.now }
        ensures { (makes : ℕ → Value → Result (List Value) ℕ) → self.new ≡ looked_along makes id route.now self.old }
    {
        let phase = self.phase(id);
        self.target_looks(route, phase);
        let same = self.phase(id);
        self.source_looks(route, same);
    }

    /// All blocks, inputs, exits and links, apart.
    pub fn into_lists(self) -> (Vec<Node>, Vec<Input>, Vec<ExitEnd>, Vec<LinkState>)
        ensures nodes { result.0.items ≡ self.nodes }
        ensures inputs { result.1.items ≡ self.inputs }
        ensures exits { result.2.items ≡ self.exits }
        ensures lines { result.3.items ≡ self.lines }
    {
        let Parts {
            nodes,
            inputs,
            exits,
            lines,
        } = self;
        (nodes, inputs, exits, lines)
    }

    /// The source's end of a link looks at its phase.
    fn source_looks(&mut self, route: &Route, phase: Phase)
        requires { SourceIsThere self.old route.now.source route.now.source_place }
        ensures { (makes : ℕ → Value → Result (List Value) ℕ) →
            self.new ≡ source_looked makes phase route.now.source route.now.source_place self.old }
    {
        match route.source {
            LinkSource::Block(block) => look_exit(
                &mut self.nodes[block],
                route.source_place,
                phase,
            ),
            LinkSource::Input(_) => self.inputs[route.source_place].look(phase),
        }
    }

    /// The target's end of a link looks at its phase.
    pub(crate) fn target_looks(&mut self, route: &Route, phase: Phase)
        requires { TargetIsThere self.old route.now.target route.now.target_place }
        ensures { (makes : ℕ → Value → Result (List Value) ℕ) →
            self.new ≡ target_looked makes phase route.now.target route.now.target_place self.old }
    {
        match route.target {
            LinkTarget::Port(block, port) => {
                self.nodes[block].look_in(port, route.target_place, phase);
            }
            LinkTarget::Exit => self.exits[route.target_place].look(phase),
        }
    }
}

/// Whether it is the source's move.
pub fn is_of_source(next: &Move) -> bool
    ensures { result ≡ is_of_source next.now }
{
    matches!(
        next,
        Move::Offer(_)
            | Move::Post(_)
            | Move::Withdraw
            | Move::Deny
            | Move::Hold
            | Move::Give
            | Move::End(_)
    )
}
