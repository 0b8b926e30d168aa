//! The task of a block: what is turned of it, and its lanes.
ghost use Rattle.std.specs.Prelude.{◌≡◌, ◌==◌, ◌<◌, ◌≤◌, true, false, not, cond, count_by, is_none, is_some, ltb, IfOk, OnErr, Some};
ghost use Rattle.std.specs.Option.{ForSome};
ghost use Rattle.flow_poll.specs.Turns.{Extends};
ghost use Rattle.flow_poll.specs.declared.actor.TurnState.TheVariants.{Ended, Moved};
ghost use Rattle.flow_task.specs.Cells.{last_outcome};
ghost use Rattle.flow_task.specs.Events.{AllLook, HasEvent, HasLooked, TurnsBy};
ghost use Rattle.flow_lane.specs.BlockLanes.{has_ended};
ghost use Rattle.flow_task.specs.Laned.{LanesAreOut, LanesRest, LanesStayOut, OnlyEnd, are_lanes_over, are_more_ended, is_ended, state_with};
ghost use Rattle.flow_task.specs.Tasks.{journal_of, makes_of};
ghost use Rattle.flow_task.specs.Turns.{IsOver, IsStill, are_links_over, has_done, state_of};

use crate::board::Board;
use crate::gate::{Gate, JobPolicy};
use crate::task::BlockTask;
use flow_lane::JobLanes;
use flow_poll::{TurnState, Turned};
use flow_value::Runs;
use std::alloc::{AllocError, Global};

/// A block with its lanes. A block that has one lane does its jobs itself, and has none here. Each ticket that stands in a lane is out.
#[derive(Drop)]
pub struct LanedTask<W: Runs> {
    pub(crate) block: BlockTask<W>,
    pub(crate) lanes: Option<JobLanes<W>>,
    ghost out: { ForSome lanes (λ its. LanesAreOut block.node its) },
}

impl<W: Runs> LanedTask<W> {
    /// Turns the block, and then gives it what its lanes have done, and gives them what it holds. It has ended once its lanes are ended,
    /// too, and a turn that ended any has moved. With no budget it does nothing else to them.
    pub(crate) fn turn<G: Gate>(
        &mut self,
        alloc: Global,
        board: &Board<W>,
        budget: u32,
        gate: &G,
    ) -> Result<Turned, AllocError>
        requires of { self.old.block.of.value ≡ board.now }
        ensures of { self.new.block.of.value ≡ self.old.block.of.value }
        ensures number { self.new.block.number ≡ self.old.block.number }
        ensures within { IfOk result (λ turned. turned.events ≤ budget) }
        ensures extends { Extends (journal_of self.old.block) (journal_of self.new.block) }
        ensures kept { OnErr result (journal_of self.new.block ≡ journal_of self.old.block) }
        ensures nothing { budget ≡ 0 → journal_of self.new.block ≡ journal_of self.old.block }
        ensures looked { OnErr result (∥ HasLooked AllLook self.old.block.node self.new.block.node ∥₁) }
        ensures happens { IfOk result (λ turned.
            ∥ TurnsBy AllLook (HasEvent true (makes_of W.meaning self.old.block)) turned.events self.old.block.node self.new.block.node ∥₁) }
        ensures lanes { budget ≡ 0 → OnlyEnd self.old.lanes self.new.lanes }
        ensures state { IfOk result (λ turned. turned.state ≡
            state_with (are_more_ended self.old.lanes self.new.lanes) (are_lanes_over self.new.lanes)
            (state_of (has_done turned.events (is_some self.old.block.note.known) self.new.block.note.known) self.new.block.note.known
            self.new.block.node)) }
        ensures ended { IfOk result (λ turned. turned.state ≡ Ended → IsOver (journal_of self.new.block)) }
        ensures links { IfOk result (λ turned. turned.state ≡ Ended → are_links_over self.new.block.node ≡ true) }
        ensures told { IfOk result (λ turned. turned.state ≡ Ended → self.new.block.note.known ≡ last_outcome (journal_of self.new.block)) }
        ensures still { IfOk result (λ turned. 0 < budget → turned.events ≡ 0 →
            IsStill (makes_of W.meaning self.new.block) self.new.block.node (is_none self.new.lanes) self.new.block.ins.items
            self.new.block.outs.items) }
        ensures all_look { IfOk result (λ turned. turned.events ≡ 0 → AllLook self.old.block.node self.new.block.node) }
        ensures rests { IfOk result (λ turned. 0 < budget → turned.events ≡ 0 →
            ForSome self.new.lanes (λ lanes. LanesRest (makes_of W.meaning self.new.block) self.new.block.node lanes)) }
    {
        match &mut self.lanes {
            Some(lanes) => self.block.turn_with(alloc, board, lanes, budget, gate),
            None => {
                let policy = JobPolicy {
                    in_place: true,
                    gate,
                };
                self.block.turn(alloc, board, budget, &policy)
            }
        }
    }
}

impl<W: Runs> BlockTask<W> {
    /// The same of a block whose jobs go through these lanes.
    fn turn_with<G: Gate>(
        &mut self,
        alloc: Global,
        board: &Board<W>,
        lanes: &mut JobLanes<W>,
        budget: u32,
        gate: &G,
    ) -> Result<Turned, AllocError>
        requires of { self.old.of.value ≡ board.now }
        ensures of { self.new.of.value ≡ self.old.of.value }
        ensures number { self.new.number ≡ self.old.number }
        ensures within { IfOk result (λ turned. turned.events ≤ budget) }
        ensures extends { Extends (journal_of self.old) (journal_of self.new) }
        ensures kept { OnErr result (journal_of self.new ≡ journal_of self.old) }
        ensures nothing { budget ≡ 0 → journal_of self.new ≡ journal_of self.old }
        ensures looked { OnErr result (∥ HasLooked AllLook self.old.node self.new.node ∥₁) }
        ensures happens { IfOk result (λ turned.
            ∥ TurnsBy AllLook (HasEvent true (makes_of W.meaning self.old)) turned.events self.old.node self.new.node ∥₁) }
        ensures lanes { budget ≡ 0 → OnlyEnd (Some lanes.old) (Some lanes.new) }
        ensures state { IfOk result (λ turned. turned.state ≡
            state_with (are_more_ended (Some lanes.old) (Some lanes.new)) (are_lanes_over (Some lanes.new))
            (state_of (has_done turned.events (is_some self.old.note.known) self.new.note.known) self.new.note.known self.new.node)) }
        ensures ended { IfOk result (λ turned. turned.state ≡ Ended → IsOver (journal_of self.new)) }
        ensures links { IfOk result (λ turned. turned.state ≡ Ended → are_links_over self.new.node ≡ true) }
        ensures told { IfOk result (λ turned. turned.state ≡ Ended → self.new.note.known ≡ last_outcome (journal_of self.new)) }
        ensures still { IfOk result (λ turned. 0 < budget → turned.events ≡ 0 → IsStill (makes_of W.meaning self.new) self.new.node false
            self.new.ins.items self.new.outs.items) }
        ensures all_look { IfOk result (λ turned. turned.events ≡ 0 → AllLook self.old.node self.new.node) }
        ensures rests { IfOk result (λ turned. 0 < budget → turned.events ≡ 0 → LanesRest (makes_of W.meaning self.new) self.new.node lanes.new) }
        ensures out { LanesStayOut self.old.node self.new.node lanes.old lanes.new }
    {
        let policy = JobPolicy {
            in_place: false,
            gate,
        };
        let before = lanes.ended_count();
        let turned = self.turn(alloc, board, budget, &policy)?;
        let mut left = budget - turned.events;
        match self.use_lanes(alloc, board, lanes, gate, &mut left) {
            Ok(()) => Ok(end_lanes(lanes, before, turned, budget - left)),
            Err(fault) => {
                if left == budget {
                    return Err(fault);
                }
                Ok(Turned {
                    events: budget - left,
                    state: TurnState::Moved,
                })
            }
        }
    }
}

/// What comes of a turn in which so many events were done, those in lanes among them. Where the block has ended, the lanes in which
/// nothing is end. Before the turn, so many were ended.
fn end_lanes<W: Runs>(lanes: &mut JobLanes<W>, before: usize, turned: Turned, events: u32) -> Turned
    ensures events { result.events ≡ events }
    ensures state { result.state ≡ cond (ltb 0 events) Moved
        (state_with (not (before == count_by has_ended lanes.new.sides)) (are_lanes_over (Some lanes.new)) turned.state) }
    ensures lanes { is_ended turned.state ≡ false → lanes.new ≡ lanes.old }
    ensures only { OnlyEnd (Some lanes.old) (Some lanes.new) }
{
    let over = match turned.state {
        TurnState::Ended => lanes.end(),
        TurnState::Moved | TurnState::Idle => false,
    };
    if events > 0 || before != lanes.ended_count() {
        return Turned {
            events,
            state: TurnState::Moved,
        };
    }
    let state = match turned.state {
        TurnState::Ended => {
            if over {
                TurnState::Ended
            } else {
                TurnState::Idle
            }
        }
        TurnState::Moved => TurnState::Moved,
        TurnState::Idle => TurnState::Idle,
    };
    Turned { events, state }
}
