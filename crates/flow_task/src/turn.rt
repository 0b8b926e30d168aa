//! Turns of a block. All its ends look, and then it goes once round: the ends into it make their moves, it does what it can by itself,
//! and the ends out of it make their moves. So a turn costs as much as the block has ends and does events, however many ends each event
//! has beside its own. A turn that has no event left says where the next one goes on.
ghost use Rattle.std.specs.Prelude.{◌≡◌, ℕ, ◌<◌, ◌≤◌, true, false, is_some, length, Some, IfOk, OnOk, OnErr};
ghost use Rattle.flow_block.specs.Node.{next_in};
ghost use Rattle.flow_core.specs.MovesFit.{out_count, in_count};
ghost use Rattle.flow_poll.specs.Turns.{Extends};
ghost use Rattle.flow_poll.specs.declared.actor.TurnState.TheVariants.{Ended};
ghost use Rattle.flow_task.specs.Cells.{is_same_end, is_told, last_outcome};
ghost use Rattle.flow_task.specs.Events.{AllLook, Does, HasEvent, HasLooked, Spends, TurnsBy};
ghost use Rattle.flow_task.specs.Misses.{InsMissStill, OutsMissStill};
ghost use Rattle.flow_task.specs.Turns.{InIsStill, IsOver, IsStill, LooksIn, LooksOut, OutIsStill, OwnIsDone, PortIsStill, PortsLook, are_links_over, has_done, state_of};

use crate::board::Board;
use crate::gate::{Gate, JobPolicy};
use crate::task::BlockTask;
use flow_link::{Mark, Move, Outcome, PortId};
use flow_moves::next_of_exit;
use flow_poll::{TurnState, Turned};
use flow_value::Runs;
use std::alloc::{AllocError, Global};

/// Where a turn goes on.
#[derive(Clone, Copy)]
pub(crate) enum Station {
    /// At the end of the link into this port at this place.
    In(PortId, usize),
    /// At what the block does by itself.
    Own,
    /// At the end of the link out of the block at this place.
    Out(usize),
}

impl<W: Runs> BlockTask<W> {
    ghost use Rattle.flow_task.specs.Tasks.{journal_of, makes_of};

    /// The marks of the block, in order.
    pub fn journal(&self) -> &[Mark]
        ensures { result.now ≡ journal_of self.now }
    {
        self.node.journal()
    }

    /// Turns the block: it looks at each of its links, and does what comes next, at most so many events. It answers that there is
    /// nothing to do only where it has looked and gone all the way round, and each end that would take back, consume or ask has tried it and
    /// missed. Where memory is out before the first event, its ends have
    /// looked at most; later, the turn ends with the events that are done. An event that needs a message id where none is left is not
    /// done, and the rest goes on. It has moved where an event was done, or it told how its block has ended. It has ended once the block has stopped, as its last mark says, all its links are refused or ended,
    /// and its watches can know how it has stopped. It does its jobs itself only where they are done in place.
    pub fn turn<G: Gate>(
        &mut self,
        alloc: Global,
        board: &Board<W>,
        budget: u32,
        policy: &JobPolicy<'_, G>,
    ) -> Result<Turned, AllocError>
        requires of { self.old.of.value ≡ board.now }
        ensures of { self.new.of.value ≡ self.old.of.value }
        ensures number { self.new.number ≡ self.old.number }
        ensures within { IfOk result (λ turned. turned.events ≤ budget) }
        ensures extends { Extends (journal_of self.old) (journal_of self.new) }
        ensures kept { OnErr result (journal_of self.new ≡ journal_of self.old) }
        ensures nothing { budget ≡ 0 → journal_of self.new ≡ journal_of self.old }
        ensures looked { OnErr result (∥ HasLooked AllLook self.old.node self.new.node ∥₁) }
        ensures happens { IfOk result (λ turned.
            ∥ TurnsBy AllLook (HasEvent policy.now.in_place (makes_of W.meaning self.old)) turned.events self.old.node self.new.node ∥₁) }
        ensures all_look { IfOk result (λ turned. turned.events ≡ 0 → AllLook self.old.node self.new.node) }
        ensures idle { IfOk result (λ turned. turned.events ≡ 0 → journal_of self.new ≡ journal_of self.old) }
        ensures state { IfOk result (λ turned. turned.state ≡
            state_of (has_done turned.events (is_some self.old.note.known) self.new.note.known) self.new.note.known self.new.node) }
        ensures ended { IfOk result (λ turned. turned.state ≡ Ended → IsOver (journal_of self.new)) }
        ensures links { IfOk result (λ turned. turned.state ≡ Ended → are_links_over self.new.node ≡ true) }
        ensures told { IfOk result (λ turned. turned.state ≡ Ended → self.new.note.known ≡ last_outcome (journal_of self.new)) }
        ensures still { IfOk result (λ turned. 0 < budget → turned.events ≡ 0 → IsStill (makes_of W.meaning self.new) self.new.node policy.now.in_place
            self.new.ins.items self.new.outs.items) }
    {
        let before = self.told;
        self.look_ins(board);
        self.look_outs(board);
        let mut left = budget;
        match self.go_round(alloc, board, policy, &mut left) {
            Ok(()) => self.end_turn(alloc, board, budget - left, before),
            Err(fault) => {
                if left == budget {
                    return Err(fault);
                }
                Ok(self.turned(budget - left, before, false))
            }
        }
    }

    /// It tells how its block has ended, if it has. Where memory is out for that and no event was done, the turn is refused. `before` says
    /// whether it was told before the turn.
    fn end_turn(
        &mut self,
        alloc: Global,
        board: &Board<W>,
        events: u32,
        before: bool,
    ) -> Result<Turned, AllocError>
        requires of { self.old.of.value ≡ board.now }
        ensures of { self.new.of.value ≡ self.old.of.value }
        ensures number { self.new.number ≡ self.old.number }
        ensures ins { self.new.ins ≡ self.old.ins }
        ensures outs { self.new.outs ≡ self.old.outs }
        ensures node { self.new.node ≡ self.old.node }
        ensures events { IfOk result (λ turned. turned.events ≡ events) }
        ensures none { OnErr result (events ≡ 0) }
        ensures state { IfOk result (λ turned. turned.state ≡
            state_of (has_done turned.events before self.new.note.known) self.new.note.known self.new.node) }
        ensures ended { IfOk result (λ turned. turned.state ≡ Ended → IsOver (journal_of self.new)) }
        ensures links { IfOk result (λ turned. turned.state ≡ Ended → are_links_over self.new.node ≡ true) }
        ensures told { IfOk result (λ turned. turned.state ≡ Ended → self.new.note.known ≡ last_outcome (journal_of self.new)) }
    {
        match self.tell_end(alloc, board) {
            Ok(told) => Ok(self.turned(events, before, told)),
            Err(fault) => {
                if events == 0 {
                    return Err(fault);
                }
                Ok(self.turned(events, before, false))
            }
        }
    }

    /// Tells in its cell how the block has ended, if it has, and whether that stands there now.
    fn tell_end(&mut self, alloc: Global, board: &Board<W>) -> Result<bool, AllocError>
        requires of { self.old.of.value ≡ board.now }
        ensures of { self.new.of.value ≡ self.old.of.value }
        ensures number { self.new.number ≡ self.old.number }
        ensures ins { self.new.ins ≡ self.old.ins }
        ensures outs { self.new.outs ≡ self.old.outs }
        ensures node { self.new.node ≡ self.old.node }
        ensures told { IfOk result (λ told. told ≡ is_told self.new.note.known self.new.node.block.stopped) }
    {
        let Some(outcome) = self.node.block().stopped() else {
            return Ok(false);
        };
        let cell = &board.cells[self.number];
        if !self.told {
            let told = Box::new(alloc, outcome)?;
            drop(cell.set_as(told, &mut self.note));
            self.told = true;
        }
        match cell.get_as(&mut self.note) {
            Some(told) => Ok(is_same_end(*told, outcome)),
            None => unreachable!(),
        }
    }

    /// What comes of a turn in which so many events were done. `before` says whether it was told before how the block has ended. Where that
    /// was not told now and no event was done, `told` says whether its watches can know it.
    fn turned(&self, events: u32, before: bool, told: bool) -> Turned
        requires { events ≡ 0 → told ≡ is_told self.now.note.known self.now.node.block.stopped }
        ensures events { result.events ≡ events }
        ensures state { result.state ≡
            state_of (has_done result.events before self.now.note.known) self.now.note.known self.now.node }
        ensures ended { result.state ≡ Ended → IsOver (journal_of self.now) }
        ensures links { result.state ≡ Ended → are_links_over self.now.node ≡ true }
        ensures told { result.state ≡ Ended → self.now.note.known ≡ last_outcome (journal_of self.now) }
    {
        if events > 0 || (!before && self.told) {
            return Turned {
                events,
                state: TurnState::Moved,
            };
        }
        if told && self.are_links_over() {
            return Turned {
                events,
                state: TurnState::Ended,
            };
        }
        Turned {
            events,
            state: TurnState::Idle,
        }
    }

    /// The block goes on from where it stands, by what its ends know, until it has gone round or no event is left. Where it finds nothing
    /// to do from there on, it goes all the way round.
    fn go_round<G: Gate>(
        &mut self,
        alloc: Global,
        board: &Board<W>,
        policy: &JobPolicy<'_, G>,
        left: &mut u32,
    ) -> Result<(), AllocError>
        requires of { self.old.of.value ≡ board.now }
        ensures of { self.new.of.value ≡ self.old.of.value }
        ensures number { self.new.number ≡ self.old.number }
        ensures spends { Spends policy.now.in_place (makes_of W.meaning self.old) left.old left.new self.old.node self.new.node }
        ensures still { OnOk result (0 < left.old → left.new ≡ left.old → IsStill (makes_of W.meaning self.old) self.new.node policy.now.in_place
            self.new.ins.items self.new.outs.items) }
    {
        let from_start = self.is_at_start();
        let before = *left;
        self.go_on(alloc, board, policy, left)?;
        if from_start || *left < before {
            return Ok(());
        }
        self.go_on(alloc, board, policy, left)
    }

    /// Whether it stands where a round begins.
    fn is_at_start(&self) -> bool
        ensures { result ≡ true → self.now.at ≡ Station.In 0 0 }
    {
        match self.at {
            Station::In(0, 0) => true,
            Station::In(_, _) | Station::Own | Station::Out(_) => false,
        }
    }

    /// The block goes on from where it stands to the end of the round, where the next one begins, unless no event is left before.
    fn go_on<G: Gate>(
        &mut self,
        alloc: Global,
        board: &Board<W>,
        policy: &JobPolicy<'_, G>,
        left: &mut u32,
    ) -> Result<(), AllocError>
        requires of { self.old.of.value ≡ board.now }
        ensures of { self.new.of.value ≡ self.old.of.value }
        ensures number { self.new.number ≡ self.old.number }
        ensures spends { Spends policy.now.in_place (makes_of W.meaning self.old) left.old left.new self.old.node self.new.node }
        ensures still { OnOk result (0 < left.old → left.new ≡ left.old → self.old.at ≡ Station.In 0 0 →
            IsStill (makes_of W.meaning self.old) self.old.node policy.now.in_place self.new.ins.items self.new.outs.items) }
        ensures back { OnOk result (0 < left.old → left.new ≡ left.old → self.new.at ≡ Station.In 0 0) }
    {
        match self.at {
            Station::In(port, place) => self.go_on_in(alloc, board, policy, port, place, left),
            Station::Own => self.go_on_own(alloc, board, policy, left),
            Station::Out(place) => self.go_on_out(alloc, board, place, left),
        }
    }

    /// The same from the end of the link into this port at this place.
    fn go_on_in<G: Gate>(
        &mut self,
        alloc: Global,
        board: &Board<W>,
        policy: &JobPolicy<'_, G>,
        port: PortId,
        place: usize,
        left: &mut u32,
    ) -> Result<(), AllocError>
        requires of { self.old.of.value ≡ board.now }
        ensures of { self.new.of.value ≡ self.old.of.value }
        ensures number { self.new.number ≡ self.old.number }
        ensures spends { Spends policy.now.in_place (makes_of W.meaning self.old) left.old left.new self.old.node self.new.node }
        ensures still { OnOk result (0 < left.old → left.new ≡ left.old → port ≡ 0 → place ≡ 0 →
            IsStill (makes_of W.meaning self.old) self.old.node policy.now.in_place self.new.ins.items self.new.outs.items) }
        ensures back { OnOk result (0 < left.old → left.new ≡ left.old → self.new.at ≡ Station.In 0 0) }
    {
        if self.move_ins(board, port, place, left)? {
            return self.go_on_own(alloc, board, policy, left);
        }
        Ok(())
    }

    /// The same from what the block does by itself.
    fn go_on_own<G: Gate>(
        &mut self,
        alloc: Global,
        board: &Board<W>,
        policy: &JobPolicy<'_, G>,
        left: &mut u32,
    ) -> Result<(), AllocError>
        requires of { self.old.of.value ≡ board.now }
        ensures of { self.new.of.value ≡ self.old.of.value }
        ensures number { self.new.number ≡ self.old.number }
        ensures ins { self.new.ins ≡ self.old.ins }
        ensures spends { Spends policy.now.in_place (makes_of W.meaning self.old) left.old left.new self.old.node self.new.node }
        ensures own { OnOk result (0 < left.old → left.new ≡ left.old → OwnIsDone (makes_of W.meaning self.old) self.old.node policy.now.in_place) }
        ensures outs { OnOk result (0 < left.old → left.new ≡ left.old → (k : ℕ) → k < out_count self.old.node →
            OutIsStill k self.old.node self.new.outs.items) }
        ensures back { OnOk result (0 < left.old → left.new ≡ left.old → self.new.at ≡ Station.In 0 0) }
    {
        if self.act_on(alloc, board, policy, left)? {
            return self.go_on_out(alloc, board, 0, left);
        }
        Ok(())
    }

    /// The block does what it can by itself. False where no event is left for more: then it stands there.
    fn act_on<G: Gate>(
        &mut self,
        alloc: Global,
        board: &Board<W>,
        policy: &JobPolicy<'_, G>,
        left: &mut u32,
    ) -> Result<bool, AllocError>
        requires of { self.old.of.value ≡ board.now }
        ensures of { self.new.of.value ≡ self.old.of.value }
        ensures number { self.new.number ≡ self.old.number }
        ensures ins { self.new.ins ≡ self.old.ins }
        ensures spends { Spends policy.now.in_place (makes_of W.meaning self.old) left.old left.new self.old.node self.new.node }
        ensures still { IfOk result (λ all. all ≡ true → left.new ≡ left.old → OwnIsDone (makes_of W.meaning self.old) self.old.node policy.now.in_place) }
        ensures stops { IfOk result (λ all. all ≡ false → 0 < left.old → left.new < left.old) }
    {
        while *left > 0 {
            if !self.act(alloc, board, policy)? {
                return Ok(true);
            }
            *left -= 1;
        }
        self.at = Station::Own;
        Ok(false)
    }

    /// The ends out of the block make their moves, from this place on. Where no event is left for more, it stands there.
    fn go_on_out(
        &mut self,
        alloc: Global,
        board: &Board<W>,
        first: usize,
        left: &mut u32,
    ) -> Result<(), AllocError>
        requires of { self.old.of.value ≡ board.now }
        ensures of { self.new.of.value ≡ self.old.of.value }
        ensures number { self.new.number ≡ self.old.number }
        ensures ins { self.new.ins ≡ self.old.ins }
        ensures spends { Spends false (makes_of W.meaning self.old) left.old left.new self.old.node self.new.node }
        ensures still { OnOk result (0 < left.old → left.new ≡ left.old → first ≡ 0 → (k : ℕ) → k < out_count self.old.node →
            OutIsStill k self.old.node self.new.outs.items) }
        ensures back { OnOk result (0 < left.old → left.new ≡ left.old → self.new.at ≡ Station.In 0 0) }
    {
        for place in first..self.outs.len() {
            if *left == 0 {
                self.at = Station::Out(place);
                return Ok(());
            }
            self.move_out_once(alloc, board, place, left)?;
        }
        self.at = Station::In(0, 0);
        Ok(())
    }

    /// The ends into the block make their moves, from this place of this port on. False where no event is left for more: then it stands
    /// there.
    fn move_ins(
        &mut self,
        board: &Board<W>,
        first: PortId,
        place: usize,
        left: &mut u32,
    ) -> Result<bool, AllocError>
        requires of { self.old.of.value ≡ board.now }
        ensures of { self.new.of.value ≡ self.old.of.value }
        ensures number { self.new.number ≡ self.old.number }
        ensures spends { Spends false (makes_of W.meaning self.old) left.old left.new self.old.node self.new.node }
        ensures still { IfOk result (λ all. all ≡ true → left.new ≡ left.old → first ≡ 0 → place ≡ 0 → (p : ℕ) →
            p < length self.old.node.block.ports → PortIsStill p self.old.node self.new.ins.items) }
        ensures stops { IfOk result (λ all. all ≡ false → 0 < left.old → left.new < left.old) }
    {
        for port in first as usize..self.node.block().port_count() {
            let from = if port == first as usize { place } else { 0 };
            if !self.move_port(board, port as PortId, from, left)? {
                return Ok(false);
            }
        }
        Ok(true)
    }

    /// The same at one port.
    fn move_port(
        &mut self,
        board: &Board<W>,
        port: PortId,
        first: usize,
        left: &mut u32,
    ) -> Result<bool, AllocError>
        requires of { self.old.of.value ≡ board.now }
        requires port { port < length self.old.node.block.ports }
        ensures of { self.new.of.value ≡ self.old.of.value }
        ensures number { self.new.number ≡ self.old.number }
        ensures spends { Spends false (makes_of W.meaning self.old) left.old left.new self.old.node self.new.node }
        ensures still { IfOk result (λ all. all ≡ true → left.new ≡ left.old → first ≡ 0 → PortIsStill port self.old.node self.new.ins.items) }
        ensures others { IfOk result (λ all. left.new ≡ left.old → InsMissStill self.old.ins.items self.new.ins.items) }
        ensures stops { IfOk result (λ all. all ≡ false → 0 < left.old → left.new < left.old) }
    {
        for place in first..self.node.block().in_count(port as usize) {
            if *left == 0 {
                self.at = Station::In(port, place);
                return Ok(false);
            }
            self.move_in_once(board, port, place, left)?;
        }
        Ok(true)
    }

    /// The end of the link into it at this place of a port makes its move, if it has one.
    fn move_in_once(
        &mut self,
        board: &Board<W>,
        port: PortId,
        place: usize,
        left: &mut u32,
    ) -> Result<(), AllocError>
        requires of { self.old.of.value ≡ board.now }
        requires port { port < length self.old.node.block.ports }
        requires there { place < in_count port self.old.node }
        requires left { 0 < left.old }
        ensures of { self.new.of.value ≡ self.old.of.value }
        ensures number { self.new.number ≡ self.old.number }
        ensures spends { Spends false (makes_of W.meaning self.old) left.old left.new self.old.node self.new.node }
        ensures still { OnOk result (left.new ≡ left.old → InIsStill port place self.old.node self.new.ins.items) }
        ensures others { OnOk result (left.new ≡ left.old → InsMissStill self.old.ins.items self.new.ins.items) }
    {
        match self.node.next_in(port as usize, place) {
            None => Ok(()),
            Some(Move::Open) => self.take(board, port, place, left),
            Some(next) => {
                if self.move_in(board, port, place, next)? {
                    *left -= 1;
                }
                Ok(())
            }
        }
    }

    /// The end of the link into it at this place of a port takes the message out of the slot, and puts it away at once, if an event is
    /// left for that.
    fn take(
        &mut self,
        board: &Board<W>,
        port: PortId,
        place: usize,
        left: &mut u32,
    ) -> Result<(), AllocError>
        requires of { self.old.of.value ≡ board.now }
        requires port { port < length self.old.node.block.ports }
        requires there { place < in_count port self.old.node }
        requires next { next_in port place self.old.node ≡ Some Move.Open }
        requires left { 0 < left.old }
        ensures of { self.new.of.value ≡ self.old.of.value }
        ensures number { self.new.number ≡ self.old.number }
        ensures spends { Spends false (makes_of W.meaning self.old) left.old left.new self.old.node self.new.node }
        ensures less { left.new < left.old }
    {
        self.open(board, port, place);
        *left -= 1;
        if *left == 0 {
            return Ok(());
        }
        if self.try_in(board, port, place)? {
            *left -= 1;
        }
        Ok(())
    }

    /// The end of the link out of it at this place makes its move, if it has one.
    fn move_out_once(
        &mut self,
        alloc: Global,
        board: &Board<W>,
        place: usize,
        left: &mut u32,
    ) -> Result<(), AllocError>
        requires of { self.old.of.value ≡ board.now }
        requires there { place < out_count self.old.node }
        requires left { 0 < left.old }
        ensures of { self.new.of.value ≡ self.old.of.value }
        ensures number { self.new.number ≡ self.old.number }
        ensures ins { self.new.ins ≡ self.old.ins }
        ensures spends { Spends false (makes_of W.meaning self.old) left.old left.new self.old.node self.new.node }
        ensures still { OnOk result (left.new ≡ left.old → OutIsStill place self.old.node self.new.outs.items) }
        ensures others { OnOk result (left.new ≡ left.old → OutsMissStill self.old.outs.items self.new.outs.items) }
    {
        if self.try_out(alloc, board, place)? {
            *left -= 1;
        }
        Ok(())
    }

    /// All ends out of the block look.
    fn look_outs(&mut self, board: &Board<W>)
        requires of { self.old.of.value ≡ board.now }
        ensures of { self.new.of.value ≡ self.old.of.value }
        ensures number { self.new.number ≡ self.old.number }
        ensures journal { self.new.node.journal ≡ self.old.node.journal }
        ensures looked { LooksOut (out_count self.old.node) self.old.node self.new.node }
    {
        for place in 0..self.outs.len() {
            self.look_out(board, place);
        }
    }

    /// All ends into the block look.
    fn look_ins(&mut self, board: &Board<W>)
        requires of { self.old.of.value ≡ board.now }
        ensures of { self.new.of.value ≡ self.old.of.value }
        ensures number { self.new.number ≡ self.old.number }
        ensures journal { self.new.node.journal ≡ self.old.node.journal }
        ensures looked { PortsLook (length self.old.node.block.ports) self.old.node self.new.node }
    {
        for port in 0..self.node.block().port_count() {
            self.look_port(board, port as PortId);
        }
    }

    /// All ends into a port look.
    fn look_port(&mut self, board: &Board<W>, port: PortId)
        requires of { self.old.of.value ≡ board.now }
        requires port { port < length self.old.node.block.ports }
        ensures of { self.new.of.value ≡ self.old.of.value }
        ensures number { self.new.number ≡ self.old.number }
        ensures journal { self.new.node.journal ≡ self.old.node.journal }
        ensures looked { LooksIn port (in_count port self.old.node) self.old.node self.new.node }
    {
        for place in 0..self.node.block().in_count(port as usize) {
            self.look_in(board, port, place);
        }
    }

    /// The end of the link out of it at this place makes its move. False where it has none, or the target moved first.
    fn try_out(&mut self, alloc: Global, board: &Board<W>, place: usize) -> Result<bool, AllocError>
        requires of { self.old.of.value ≡ board.now }
        requires there { place < out_count self.old.node }
        ensures of { self.new.of.value ≡ self.old.of.value }
        ensures number { self.new.number ≡ self.old.number }
        ensures ins { self.new.ins ≡ self.old.ins }
        ensures does { Does false (makes_of W.meaning self.old) result self.old.node self.new.node }
        ensures still { IfOk result (λ did. did ≡ false → OutIsStill place self.old.node self.new.outs.items) }
        ensures others { IfOk result (λ did. did ≡ false → OutsMissStill self.old.outs.items self.new.outs.items) }
    {
        match next_of_exit(&self.node, place) {
            Some(next) => self.move_out(alloc, board, place, next),
            None => Ok(false),
        }
    }

    /// The end of the link into it at this place of a port makes its move. False where it has none, or the source moved first.
    fn try_in(&mut self, board: &Board<W>, port: PortId, place: usize) -> Result<bool, AllocError>
        requires of { self.old.of.value ≡ board.now }
        requires port { port < length self.old.node.block.ports }
        requires there { place < in_count port self.old.node }
        ensures of { self.new.of.value ≡ self.old.of.value }
        ensures number { self.new.number ≡ self.old.number }
        ensures does { Does false (makes_of W.meaning self.old) result self.old.node self.new.node }
        ensures still { IfOk result (λ did. did ≡ false → InIsStill port place self.old.node self.new.ins.items) }
    {
        match self.node.next_in(port as usize, place) {
            Some(next) => self.move_in(board, port, place, next),
            None => Ok(false),
        }
    }
}

/// Whether two ends of a block are the same.
fn is_same_end(one: Outcome, other: Outcome) -> bool
    ensures { result ≡ is_same_end one other }
{
    match (one, other) {
        (Outcome::Done, Outcome::Done) => true,
        (Outcome::Faulted(one), Outcome::Faulted(other)) => one == other,
        (Outcome::Done, Outcome::Faulted(_)) | (Outcome::Faulted(_), Outcome::Done) => false,
    }
}
