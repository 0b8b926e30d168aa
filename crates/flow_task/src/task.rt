//! A block that is turned apart from the other blocks of its network: its node, and its ends of links.
ghost use Rattle.std.specs.Prelude.{◌≡◌, ◌<◌, cond, true, false, is_some, length, map, slice_get, None, Some, IfOk, OnOk, OnErr};
ghost use Rattle.std.specs.Coded.{codes};
ghost use Rattle.atomic_table.specs.Seated.{table_id_coded};
ghost use Rattle.flow_value.specs.contracts.value.Value as content;
ghost use Rattle.flow_link.specs.Planned.{layout_of};
ghost use Rattle.flow_link.specs.declared.phase.Phase.{Phase};
ghost use Rattle.flow_link.specs.declared.phase.Move.TheVariants.{Open, Withdraw};
ghost use Rattle.flow_block.specs.Block.{port_at};
ghost use Rattle.flow_block.specs.Node.{NodeCall, next_in};
ghost use Rattle.flow_block_law.specs.NextMoves.{next_source};
ghost use Rattle.flow_block_law.specs.NodeLaw.{NodeLaw};
ghost use Rattle.flow_core.specs.Events.{in_call, source_call, source_look};
ghost use Rattle.flow_core.specs.MovesFit.{out_count, in_count};
ghost use Rattle.flow_exec.specs.Works.{works_of};
ghost use Rattle.flow_intake.specs.Port.{stage_at};
ghost use Rattle.flow_link.specs.Plan.{is_one_taker};
ghost use Rattle.flow_moves.specs.Calls.{Calls, answers_first};
ghost use Rattle.flow_moves.specs.Ready.{ExitIsReady, InIsReady};
ghost use Rattle.flow_outlet.specs.Outlet.{end_at, stage_at as stage_over};
ghost use Rattle.flow_spread.specs.Spread.{link_at, stage_at as copy_stage};
ghost use Rattle.flow_task.specs.Cells.{IsNoteOf};
ghost use Rattle.flow_task.specs.Known.{out_known, in_known, link_from, link_to, outs_due, ins_due};
ghost use Rattle.flow_task.specs.Misses.{InMissed, InsMissStill, OutMissed, OutsMissStill};
ghost use Rattle.flow_task.specs.Turns.{MovesIn};
ghost use Rattle.flow_task.specs.Words.{is_withdrawal, may_be_forestalled, opens};

use crate::board::Board;
use crate::turn::Station;
use crate::words::{
    header_in, header_out, may_be_forestalled, open, take_up, withdraw, write_source, write_target,
};
use flow_block::{Block, Node};
use flow_link::{LinkId, Move, Outcome, PortId, Refusal, SourceStage, TargetStage};
use flow_moves::{look_exit, move_exit, move_in, shares_out};
use flow_value::Runs;
use flow_wire::{SourceEnd, TargetEnd, Wire};
use once_cell::race::Note;
use std::alloc::{AllocError, Global};
use std::snapshot::Snapshot;

/// A block of a board, with its ends of links: those out of it in the order of the links, and those into it by ports, in the same
/// order. It borrows nothing, so it may be turned on any thread. Each call takes the board that it is of.
#[derive(Drop)]
pub struct BlockTask<W: Runs> {
    pub(crate) of: Snapshot<Board<W>>,
    pub(crate) number: usize,
    pub(crate) node: Node,
    pub(crate) outs: Vec<SourceEnd>,
    pub(crate) ins: Vec<Vec<TargetEnd>>,
    /// Where its next turn goes on.
    pub(crate) at: Station,
    /// What it knows of the cell in which it tells how its block has ended.
    pub(crate) note: Note<Outcome>,
    /// Whether it knows that this is told there.
    pub(crate) told: bool,
    ghost there: { number < length (layout_of of.value.rest.plan).blocks },
    ghost noted: { IsNoteOf of.value number note.cell },
    ghost knows: { told ≡ is_some note.known },
    ghost law: { ∥ NodeLaw (layout_of of.value.rest.plan) (works_of W.meaning (layout_of of.value.rest.plan)) number node ∥₁ },
    ghost outs_know: { map out_known outs.items ≡ outs_due (layout_of of.value.rest.plan) of.value.wires.items number node } by { Prim.hlevel (codes, table_id_coded, content.the_row.coded) },
    ghost ins_know: { map (λ port. map in_known port.items) ins.items ≡ ins_due (layout_of of.value.rest.plan) of.value.wires.items number node } by { Prim.hlevel (codes, table_id_coded, content.the_row.coded) },
}

// The ends out of the block.
impl<W: Runs> BlockTask<W> {
    /// The end of the link out of it at this place looks.
    pub(crate) fn look_out(&mut self, board: &Board<W>, place: usize)
        requires of { self.old.of.value ≡ board.now }
        requires there { place < out_count self.old.node }
        ensures of { self.new.of.value ≡ self.old.of.value }
        ensures number { self.new.number ≡ self.old.number }
        ensures looked { (phase : Phase) × Calls (Some (source_look self.old.node.block.kind place phase)) self.old.node self.new.node }
    {
        let wire = self.wire_out(board, place);
        let phase = self.outs[place].look(wire);
        look_exit(&mut self.node, place, phase);
    }

    /// The end of the link out of it at this place makes the move that comes next there. False where the target moved first: then
    /// nothing has changed. Nor has it where memory is out.
    pub(crate) fn move_out(
        &mut self,
        alloc: Global,
        board: &Board<W>,
        place: usize,
        next: Move,
    ) -> Result<bool, AllocError>
        requires of { self.old.of.value ≡ board.now }
        requires there { place < out_count self.old.node }
        requires next { next_source place self.old.node ≡ Some next }
        ensures of { self.new.of.value ≡ self.old.of.value }
        ensures number { self.new.number ≡ self.old.number }
        ensures moved { IfOk result (λ moved. moved ≡ true →
            Calls (source_call self.old.node.block.kind place next) self.old.node self.new.node) }
        ensures ins { self.new.ins ≡ self.old.ins }
        ensures missed { IfOk result (λ moved. moved ≡ false → self.new.node ≡ self.old.node) }
        ensures late { IfOk result (λ moved. moved ≡ false → is_withdrawal next ≡ true) }
        ensures tried { IfOk result (λ moved. moved ≡ false → OutMissed self.new.outs.items place) }
        ensures others { IfOk result (λ moved. moved ≡ false → OutsMissStill self.old.outs.items self.new.outs.items) }
        ensures kept { OnErr result (self.new.node ≡ self.old.node) }
    {
        if next == Move::Withdraw {
            return Ok(self.withdraw(board, place));
        }
        let header = header_out(stage_out(self.node.block(), place));
        let wire = self.wire_out(board, place);
        let given = move_exit(&mut self.node, alloc, place, next)?;
        write_source(&mut self.outs[place], wire, next, header, given);
        Ok(true)
    }

    /// The end of the link out of it at this place takes back what waits. False where the target moved first.
    fn withdraw(&mut self, board: &Board<W>, place: usize) -> bool
        requires of { self.old.of.value ≡ board.now }
        requires there { place < out_count self.old.node }
        requires next { next_source place self.old.node ≡ Some Withdraw }
        ensures of { self.new.of.value ≡ self.old.of.value }
        ensures number { self.new.number ≡ self.old.number }
        ensures ins { self.new.ins ≡ self.old.ins }
        ensures won { result ≡ true → Calls (source_call self.old.node.block.kind place Withdraw) self.old.node self.new.node }
        ensures lost { result ≡ false → self.new.node ≡ self.old.node }
        ensures tried { result ≡ false → OutMissed self.new.outs.items place }
        ensures others { result ≡ false → OutsMissStill self.old.outs.items self.new.outs.items }
    {
        let header = header_out(stage_out(self.node.block(), place));
        let wire = self.wire_out(board, place);
        let won = withdraw(&mut self.outs[place], wire, header);
        if won {
            withdraw_exit(&mut self.node, place);
        }
        won
    }

    /// The wire of the link out of it at this place.
    fn wire_out<'b>(&self, board: &'b Board<W>, place: usize) -> &'b Wire
        requires of { self.now.of.value ≡ board.now }
        requires there { place < out_count self.now.node }
        ensures { slice_get board.now.wires.items
            (link_from (layout_of board.now.rest.plan) board.now.wires.items self.now.number place) ≡ Some result.now }
    {
        &board.wires[link_out(self.node.block(), place) as usize]
    }
}

// The ends into the block.
impl<W: Runs> BlockTask<W> {
    /// The end of the link into it at this place of a port looks.
    pub(crate) fn look_in(&mut self, board: &Board<W>, port: PortId, place: usize)
        requires of { self.old.of.value ≡ board.now }
        requires port { port < length self.old.node.block.ports }
        requires there { place < in_count port self.old.node }
        ensures of { self.new.of.value ≡ self.old.of.value }
        ensures number { self.new.number ≡ self.old.number }
        ensures looked { (phase : Phase) × Calls (Some (NodeCall.look_in port place phase)) self.old.node self.new.node }
    {
        let wire = self.wire_in(board, port, place);
        let phase = self.ins[port as usize][place].look(wire);
        self.node.look_in(port, place, phase);
    }

    /// The end of the link into it at this place of a port makes the move that comes next there. False where the source moved first:
    /// then nothing has changed. Nor has it where memory is out.
    pub(crate) fn move_in(
        &mut self,
        board: &Board<W>,
        port: PortId,
        place: usize,
        next: Move,
    ) -> Result<bool, AllocError>
        requires of { self.old.of.value ≡ board.now }
        requires port { port < length self.old.node.block.ports }
        requires there { place < in_count port self.old.node }
        requires next { next_in port place self.old.node ≡ Some next }
        ensures of { self.new.of.value ≡ self.old.of.value }
        ensures number { self.new.number ≡ self.old.number }
        ensures moved { IfOk result (λ moved. moved ≡ true → MovesIn port place next self.old.node self.new.node) }
        ensures missed { IfOk result (λ moved. moved ≡ false → self.new.node ≡ self.old.node) }
        ensures late { IfOk result (λ moved. moved ≡ false →
            may_be_forestalled next (stage_at place (port_at port self.old.node.block)) ≡ true) }
        ensures tried { IfOk result (λ moved. moved ≡ false → InMissed self.new.ins.items port place) }
        ensures others { IfOk result (λ moved. moved ≡ false → InsMissStill self.old.ins.items self.new.ins.items) }
        ensures kept { OnErr result (self.new.node ≡ self.old.node) }
    {
        if next == Move::Open {
            self.open(board, port, place);
            return Ok(true);
        }
        if may_be_forestalled(next, self.stage_in(port, place)) {
            return Ok(self.take_up(board, port, place, next));
        }
        self.answer(board, port, place, next)?;
        Ok(true)
    }

    /// The end of the link into it at this place of a port takes the message out of the slot.
    pub(crate) fn open(&mut self, board: &Board<W>, port: PortId, place: usize)
        requires of { self.old.of.value ≡ board.now }
        requires port { port < length self.old.node.block.ports }
        requires there { place < in_count port self.old.node }
        requires next { next_in port place self.old.node ≡ Some Open }
        ensures of { self.new.of.value ≡ self.old.of.value }
        ensures number { self.new.number ≡ self.old.number }
        ensures opened { MovesIn port place Open self.old.node self.new.node }
    {
        let header = header_in(self.stage_in(port, place));
        let wire = self.wire_in(board, port, place);
        let parcel = open(&mut self.ins[port as usize][place], wire, header);
        self.node.open(port, place, parcel);
    }

    /// The end of the link into it at this place of a port goes on from an offer that it postponed. False where the source moved
    /// first: then nothing has changed.
    fn take_up(&mut self, board: &Board<W>, port: PortId, place: usize, next: Move) -> bool
        requires of { self.old.of.value ≡ board.now }
        requires port { port < length self.old.node.block.ports }
        requires there { place < in_count port self.old.node }
        requires next { next_in port place self.old.node ≡ Some next }
        requires late { may_be_forestalled next (stage_at place (port_at port self.old.node.block)) ≡ true }
        ensures of { self.new.of.value ≡ self.old.of.value }
        ensures number { self.new.number ≡ self.old.number }
        ensures won { result ≡ true → MovesIn port place next self.old.node self.new.node }
        ensures lost { result ≡ false → self.new.node ≡ self.old.node }
        ensures tried { result ≡ false → InMissed self.new.ins.items port place }
        ensures others { result ≡ false → InsMissStill self.old.ins.items self.new.ins.items }
    {
        let header = header_in(self.stage_in(port, place));
        let why = self.reason_at(port);
        let wire = self.wire_in(board, port, place);
        let answer = next;
        let won = take_up(&mut self.ins[port as usize][place], wire, next, header, why);
        if won {
            let Ok(()) = answer_at(&mut self.node, port, place, answer) else {
                unreachable!()
            };
        }
        won
    }

    /// The end of the link into it at this place of a port makes a move that the source cannot forestall, and opens nothing. Where
    /// memory is out, nothing has changed.
    fn answer(
        &mut self,
        board: &Board<W>,
        port: PortId,
        place: usize,
        next: Move,
    ) -> Result<(), AllocError>
        requires of { self.old.of.value ≡ board.now }
        requires port { port < length self.old.node.block.ports }
        requires there { place < in_count port self.old.node }
        requires next { next_in port place self.old.node ≡ Some next }
        requires own { may_be_forestalled next (stage_at place (port_at port self.old.node.block)) ≡ false }
        requires kept { opens next ≡ false }
        ensures of { self.new.of.value ≡ self.old.of.value }
        ensures number { self.new.number ≡ self.old.number }
        ensures moved { OnOk result (MovesIn port place next self.old.node self.new.node) }
        ensures kept { OnErr result (self.new.node ≡ self.old.node) }
    {
        let header = header_in(self.stage_in(port, place));
        let why = self.reason_at(port);
        let wire = self.wire_in(board, port, place);
        let answer = next;
        answer_at(&mut self.node, port, place, answer)?;
        write_target(&mut self.ins[port as usize][place], wire, next, header, why);
        Ok(())
    }

    /// The wire of the link into it at this place of a port.
    fn wire_in<'b>(&self, board: &'b Board<W>, port: PortId, place: usize) -> &'b Wire
        requires of { self.now.of.value ≡ board.now }
        requires port { port < length self.now.node.block.ports }
        requires there { place < in_count port self.now.node }
        ensures { slice_get board.now.wires.items
            (link_to (layout_of board.now.rest.plan) board.now.wires.items self.now.number port place) ≡ Some result.now }
    {
        &board.wires[self.node.block().in_link(port as usize, place) as usize]
    }

    /// Why a port of the block that refuses does so.
    fn reason_at(&self, port: PortId) -> Refusal
        requires { port < length self.now.node.block.ports }
        ensures { is_some (port_at port self.now.node.block).refusing ≡ true
            → (port_at port self.now.node.block).refusing ≡ Some result }
    {
        if self.node.block().ports()[port as usize].has_ended() {
            Refusal::PortEnded
        } else {
            Refusal::OwnFault
        }
    }

    /// Where the end of the link into it at this place of a port stands.
    fn stage_in(&self, port: PortId, place: usize) -> TargetStage
        requires port { port < length self.now.node.block.ports }
        requires there { place < in_count port self.now.node }
        ensures { result ≡ stage_at place (port_at port self.now.node.block) }
    {
        self.node.block().ports()[port as usize].stage(place)
    }
}

/// The link out of a block at this place.
fn link_out(block: &Block, place: usize) -> LinkId
    requires { place < cond (is_one_taker block.now.kind) (length block.now.exits.ends) (length block.now.copies.ends) }
    ensures { result ≡ (cond (is_one_taker block.now.kind) (end_at block.now.exits place).rule (link_at block.now.copies place).rule).id }
{
    if shares_out(block) {
        block.out_link(place)
    } else {
        block.copies().ends()[place].link.rule.id
    }
}

/// Where the end of the link out of a block at this place stands.
pub(crate) fn stage_out(block: &Block, place: usize) -> SourceStage
    requires { place < cond (is_one_taker block.now.kind) (length block.now.exits.ends) (length block.now.copies.ends) }
    ensures { result ≡ cond (is_one_taker block.now.kind) (stage_over block.now.exits place) (copy_stage block.now.copies place) }
{
    if shares_out(block) {
        block.out_stage(place)
    } else {
        block.copies().ends()[place].link.stage
    }
}

/// The end of a link into a block makes its move, with nothing in its hands. Only the first answer to an offer takes memory; where it
/// is out, nothing has changed.
fn answer_at(node: &mut Node, port: PortId, place: usize, next: Move) -> Result<(), AllocError>
    requires { InIsReady port place None next node.old }
    ensures done { OnOk result (Calls (in_call port place None next) node.old node.new) }
    ensures memory { OnErr result (answers_first next ≡ true) }
    ensures kept { OnErr result (node.new ≡ node.old) }
{
    let mut slot = None;
    move_in(node, port, place, &mut slot, next)
}

/// A block takes back what waits over the link out of it at this place.
fn withdraw_exit(node: &mut Node, place: usize)
    requires { ExitIsReady place Withdraw node.old }
    ensures { Calls (source_call node.old.block.kind place Withdraw) node.old node.new }
{
    if shares_out(node.block()) {
        node.withdraw(place);
    } else {
        node.withdraw_copy(place);
    }
}
