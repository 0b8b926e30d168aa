//! Targets whose ports stay, whatever is called.
//!
//! The traits of blocks say what a port and a block need to complete and to fault, and that nothing is in the way while no
//! message is awaited. Here a target says besides that no call changes its ports, or which of them a link leads into, and
//! that it awaits messages by the calls of a target alone. So whoever knows a block by its traits alone knows after any calls
//! which of its ports may complete.
use flow_block::Block;
use flow_exec::Execution;
use flow_kinds::kind::{GivingKind, Kind, WorkKind};
use flow_kinds::{BatchedJoin, ReservingJoin, TypedBlock, TypedExecution};
use flow_link::{SourceBlock, TargetBlock};

/// A target that has the same ports after each call.
pub trait SteadyTarget: TargetBlock {
    ghost use Rattle.flow_link.specs.BlockCalls.{BlockCall};
    ghost use Rattle.flow_link.specs.TargetCalls.{TargetCall};
    ghost use Rattle.flow_kinds.specs.Steady.{PortsStay, AwaitsTheSame};

    /// It is asked whether it has ended.
    ghost asked_stays: { (old new : Self) → Self.learns old new
        → AwaitsTheSame Self.port_count Self.port_into Self.target_stage old new };

    /// It completes, faults, or makes something.
    ghost acts_stay: { (old new : Self) (call : BlockCall) → Self.acts old call new
        → AwaitsTheSame Self.port_count Self.port_into Self.target_stage old new };

    /// Something is offered to it or comes, or it wishes for something. At which link it stands elsewhere then, the call says.
    ghost takes_stay: { (old new : Self) (call : TargetCall) → Self.takes old call new
        → PortsStay Self.port_count Self.port_into old new };
}

/// A target with the same ports that gives messages, too.
///
/// Microsoft: `IPropagatorBlock<TInput, TOutput>`.
pub trait PropagatorBlock: SourceBlock + SteadyTarget {
    ghost use Rattle.flow_link.specs.SourceCalls.{SourceCall};
    ghost use Rattle.flow_kinds.specs.Steady.{AwaitsTheSame};

    /// It offers or gives something.
    ghost gives_stay: { (old new : Self) (call : SourceCall) → Self.gives old call new
        → AwaitsTheSame Self.port_count Self.port_into Self.target_stage old new };
}

impl SteadyTarget for Block {
    ghost use Rattle.flow_block.specs.Block.{BlockState};
    ghost use Rattle.flow_kinds.proofs.LinksStay.{asked_awaits, acts_await, takes_lead, ports_stay, awaits_the_same};

    ghost asked_stays = { λ old new asked. awaits_the_same (λ (b : BlockState). b.ports) old new (asked_awaits old new asked) };

    ghost acts_stay = { λ old new call acts. awaits_the_same (λ (b : BlockState). b.ports) old new (acts_await old new call acts) };

    ghost takes_stay = { λ old new call takes. ports_stay (λ (b : BlockState). b.ports) old new (takes_lead old new call takes) };
}

impl PropagatorBlock for Block {
    ghost use Rattle.flow_block.specs.Block.{BlockState};
    ghost use Rattle.flow_kinds.proofs.LinksStay.{gives_await, awaits_the_same};

    ghost gives_stay = { λ old new call gives. awaits_the_same (λ (b : BlockState). b.ports) old new (gives_await old new call gives) };
}

impl<K: Kind> SteadyTarget for TypedBlock<K> {
    ghost use Rattle.flow_block.specs.Block.{BlockState};
    ghost use Rattle.flow_kinds.proofs.LinksStay.{asked_awaits, acts_await, takes_lead, ports_stay, awaits_the_same};

    ghost asked_stays = { λ old new asked. awaits_the_same (λ (b : BlockState). b.ports) old new (asked_awaits old new asked) };

    ghost acts_stay = { λ old new call acts. awaits_the_same (λ (b : BlockState). b.ports) old new (acts_await old new call acts) };

    ghost takes_stay = { λ old new call takes. ports_stay (λ (b : BlockState). b.ports) old new (takes_lead old new call takes) };
}

impl<K: Kind> PropagatorBlock for TypedBlock<K> {
    ghost use Rattle.flow_block.specs.Block.{BlockState};
    ghost use Rattle.flow_kinds.proofs.LinksStay.{gives_await, awaits_the_same};

    ghost gives_stay = { λ old new call gives. awaits_the_same (λ (b : BlockState). b.ports) old new (gives_await old new call gives) };
}

impl<W> SteadyTarget for Execution<W> {
    ghost use Rattle.flow_exec.specs.Execution.{ExecutionState};
    ghost use Rattle.flow_kinds.proofs.LinksStay.{asked_awaits, acts_await, takes_lead, ports_stay, awaits_the_same};

    ghost asked_stays = { λ old new asked.
        awaits_the_same (λ (e : ExecutionState W). e.block.ports) old new (asked_awaits old.block new.block asked.0) };

    ghost acts_stay = { λ old new call acts.
        awaits_the_same (λ (e : ExecutionState W). e.block.ports) old new (acts_await old.block new.block call acts.0) };

    ghost takes_stay = { λ old new call takes.
        ports_stay (λ (e : ExecutionState W). e.block.ports) old new (takes_lead old.block new.block call takes.0) };
}

impl<W> PropagatorBlock for Execution<W> {
    ghost use Rattle.flow_exec.specs.Execution.{ExecutionState};
    ghost use Rattle.flow_kinds.proofs.LinksStay.{gives_await, awaits_the_same};

    ghost gives_stay = { λ old new call gives.
        awaits_the_same (λ (e : ExecutionState W). e.block.ports) old new (gives_await old.block new.block call gives.0) };
}

impl<K: WorkKind, W> SteadyTarget for TypedExecution<K, W> {
    ghost use Rattle.flow_exec.specs.Execution.{ExecutionState};
    ghost use Rattle.flow_kinds.proofs.LinksStay.{asked_awaits, acts_await, takes_lead, ports_stay, awaits_the_same};

    ghost asked_stays = { λ old new asked.
        awaits_the_same (λ (e : ExecutionState W). e.block.ports) old new (asked_awaits old.block new.block asked.0) };

    ghost acts_stay = { λ old new call acts.
        awaits_the_same (λ (e : ExecutionState W). e.block.ports) old new (acts_await old.block new.block call acts.0) };

    ghost takes_stay = { λ old new call takes.
        ports_stay (λ (e : ExecutionState W). e.block.ports) old new (takes_lead old.block new.block call takes.0) };
}

impl<K: GivingKind, W> PropagatorBlock for TypedExecution<K, W> {
    ghost use Rattle.flow_exec.specs.Execution.{ExecutionState};
    ghost use Rattle.flow_kinds.proofs.LinksStay.{gives_await, awaits_the_same};

    ghost gives_stay = { λ old new call gives.
        awaits_the_same (λ (e : ExecutionState W). e.block.ports) old new (gives_await old.block new.block call gives.0) };
}

impl SteadyTarget for BatchedJoin {
    ghost use Rattle.flow_kinds.specs.BatchedJoin.{JoinState};
    ghost use Rattle.flow_kinds.proofs.LinksStay.{asked_awaits, group_awaits, takes_lead, ports_stay, awaits_the_same};

    ghost asked_stays = { λ old new asked.
        awaits_the_same (λ (j : JoinState). j.block.ports) old new (asked_awaits old.block new.block asked.0) };

    ghost acts_stay = { λ old new call acts.
        awaits_the_same (λ (j : JoinState). j.block.ports) old new (group_awaits old new call acts) };

    ghost takes_stay = { λ old new call takes.
        ports_stay (λ (j : JoinState). j.block.ports) old new (takes_lead old.block new.block call takes.0) };
}

impl PropagatorBlock for BatchedJoin {
    ghost use Rattle.flow_kinds.specs.BatchedJoin.{JoinState};
    ghost use Rattle.flow_kinds.proofs.LinksStay.{gives_await, awaits_the_same};

    ghost gives_stay = { λ old new call gives.
        awaits_the_same (λ (j : JoinState). j.block.ports) old new (gives_await old.block new.block call gives.0) };
}

impl SteadyTarget for ReservingJoin {
    ghost use Rattle.flow_kinds.specs.ReservingJoin.{ReservingState};
    ghost use Rattle.flow_kinds.proofs.LinksStay.{asked_awaits, acts_await, reserving_leads, ports_stay, awaits_the_same};

    ghost asked_stays = { λ old new asked.
        awaits_the_same (λ (j : ReservingState). j.block.ports) old new (asked_awaits old.block new.block asked.0) };

    ghost acts_stay = { λ old new call acts.
        awaits_the_same (λ (j : ReservingState). j.block.ports) old new (acts_await old.block new.block call acts.0) };

    ghost takes_stay = { λ old new call takes.
        ports_stay (λ (j : ReservingState). j.block.ports) old new (reserving_leads old new call takes) };
}

impl PropagatorBlock for ReservingJoin {
    ghost use Rattle.flow_kinds.specs.ReservingJoin.{ReservingState};
    ghost use Rattle.flow_kinds.proofs.LinksStay.{gives_await, awaits_the_same};

    ghost gives_stay = { λ old new call gives.
        awaits_the_same (λ (j : ReservingState). j.block.ports) old new (gives_await old.block new.block call gives.0) };
}
