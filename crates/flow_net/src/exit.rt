//! A way out of a network that it owns: what a block gives is received there, one message at a time.
ghost use Rattle.std.specs.Prelude.{◌≡◌, ◌<◌, ℕ, true, false, length, is_some, IfOk, IfErr, IfSome, IfNone, OnOk, OnErr, Some};
ghost use Rattle.flow_net.specs.Asked.{none_asked};
ghost use Rattle.flow_link.specs.Plan.{link_in};
ghost use Rattle.flow_link.specs.Planned.{layout_of};
ghost use Rattle.flow_block.specs.Planned.{exit_place};
ghost use Rattle.flow_exit.specs.Exit.{ExitCall, after_exit, exit_outcome, over_by};
ghost use Rattle.flow_net.specs.Engine.{InOrder};
ghost use Rattle.flow_poll.specs.Receives.{is_in_sight};
ghost use Rattle.flow_moves.specs.Sights.{is_exit_of, sight_of};

use crate::engine::Engine;
use crate::net::Net;
use crate::serve::{Caller, comes_near, memory_of};
use flow_link::{Link, LinkId, LinkSource, LinkTarget, Outcome};
use flow_moves::Spot;
use flow_poll::{ReceivePort, Received};
use flow_value::{Runs, Value};
use std::alloc::{AllocError, Global};

/// The exit of a block, with the network that it owns. Each look has the network do at most so many events, `steps`. Between two calls no
/// receive waits.
///
/// Microsoft: `IReceivableSourceBlock<TOutput>`.
#[derive(Drop)]
pub struct NetExit<W: Runs> {
    engine: Engine<W>,
    block: usize,
    link: LinkId,
    /// The place of its end among all exits.
    place: usize,
    steps: u64,
    ghost kept: { InOrder W.meaning engine },
    ghost there: { link < length (layout_of engine.plan).links },
    ghost own: { is_exit_of block (link_in (layout_of engine.plan).links link) ≡ true },
    ghost placed: { place ≡ exit_place (layout_of engine.plan) link },
    ghost unasked: { none_asked engine.parts ≡ true },
}

/// Whether this link leads from this block out of the network.
fn is_exit_of(block: usize, link: Link) -> bool
    ensures { result ≡ is_exit_of block link }
{
    link.source == LinkSource::Block(block) && link.target == LinkTarget::Exit
}

impl<W: Runs> Net<W> {
    ghost use Rattle.flow_net.specs.Exits.{exit_block, exit_layout, exit_link, exit_parts};
    ghost use Rattle.flow_net.specs.Net.{layout_in, parts_of};

    /// The exit of this block, which owns the network until it gives it back; each look does at most `steps` events. The
    /// network comes back at once where there is no such exit.
    pub fn exit(self, block: usize, steps: u64) -> Result<NetExit<W>, Net<W>>
        ensures same_layout { IfOk result (λ port. exit_layout port ≡ layout_in self) }
        ensures same_parts { IfOk result (λ port. exit_parts port ≡ parts_of self) }
        ensures its_block { IfOk result (λ port. exit_block port ≡ block) }
        ensures its_link { IfOk result (λ port. is_exit_of block (link_in (layout_in self).links (exit_link port)) ≡ true) }
        ensures none { OnErr result ((l : ℕ) → l < length (layout_in self).links →
            is_exit_of block (link_in (layout_in self).links l) ≡ false) }
        ensures back { IfErr result (λ net. net ≡ self) }
    {
        let Some(link) = self.link_out_of(block) else {
            return Err(self);
        };
        let place = self.engine.route(link).target_place;
        let Net { engine } = self;
        Ok(NetExit {
            engine,
            block,
            link,
            place,
            steps,
        })
    }

    /// The link that leads from this block out of the network, if there is one.
    fn link_out_of(&self, block: usize) -> Option<LinkId>
        ensures there { IfSome result (λ link. link < length (layout_in self.now).links) }
        ensures leads { IfSome result (λ link. is_exit_of block (link_in (layout_in self.now).links link) ≡ true) }
        ensures none { IfNone result ((l : ℕ) → l < length (layout_in self.now).links →
            is_exit_of block (link_in (layout_in self.now).links l) ≡ false) }
    {
        for id in 0..self.engine.plan.link_count() {
            if is_exit_of(block, self.engine.plan.link(id)) {
                return Some(id);
            }
        }
        None
    }
}

impl<W: Runs> NetExit<W> {
    ghost use Rattle.flow_net.specs.Exits.{exit_block, exit_layout, exit_link, exit_of, exit_parts};
    ghost use Rattle.flow_net.specs.Net.{layout_in, parts_of};

    /// The network, as it is.
    pub fn into_net(self) -> Net<W>
        ensures same_layout { layout_in result ≡ exit_layout self }
        ensures same_parts { parts_of result ≡ exit_parts self }
    {
        let NetExit { engine, .. } = self;
        Net { engine }
    }

    /// Has the network do what it may, at most as many events as a look does, while a receive waits or while none does.
    fn look(&mut self, alloc: Global, waits: bool) -> Result<(), AllocError>
        ensures same_layout { exit_layout self.new ≡ exit_layout self.old }
        ensures same_block { exit_block self.new ≡ exit_block self.old }
        ensures same_link { exit_link self.new ≡ exit_link self.old }
        ensures received { (exit_of self.new).received ≡ (exit_of self.old).received }
        ensures over { (how : Outcome) → over_by (exit_of self.old) ≡ Some how → over_by (exit_of self.new) ≡ Some how }
    {
        self.engine.agenda.list(Spot::Link(self.link));
        self.engine.parts.ask(self.place, waits);
        let caller = Caller::Exit(self.place, waits);
        let served = self.engine.serve(alloc, caller, self.steps);
        self.engine.parts.ask(self.place, false);
        memory_of(&served)
    }

    /// Hands out the message that is kept, if any.
    fn take(&mut self) -> Result<Option<Value>, AllocError>
        ensures same_layout { exit_layout self.new ≡ exit_layout self.old }
        ensures same_block { exit_block self.new ≡ exit_block self.old }
        ensures same_link { exit_link self.new ≡ exit_link self.old }
        ensures gives { IfOk result (λ value. value ≡ (exit_of self.old).kept) }
        ensures done { OnOk result (exit_of self.new ≡ after_exit ExitCall.receive (exit_of self.old)) }
        ensures kept { OnErr result (exit_of self.new ≡ exit_of self.old) }
    {
        self.engine.parts.receive_at(self.place)
    }
}

impl<W: Runs> NetExit<W> {
    ghost use Rattle.flow_link.specs.Trace.{gave_over, marks_of};
    ghost use Rattle.flow_core.specs.Statements.{IsReceivedOf};
    ghost use Rattle.flow_net.specs.Exits.{exit_block, exit_link, exit_of, exit_run};

    /// The values that were received there, in order: what the block gave over the exit, each once, as far as it went. It gave at
    /// most one message more.
    pub fn received(&self) -> &[Value]
        ensures received { result.now ≡ (exit_of self.now).received }
        ensures given { IsReceivedOf result.now (gave_over (exit_link self.now) (marks_of (exit_run W.meaning self.now)
            (exit_block self.now))) }
    {
        self.engine.parts.exit(self.place).received()
    }

    /// How the block ended, once the end of its exit has seen it.
    fn outcome(&self) -> Option<Outcome>
        ensures { result ≡ exit_outcome (exit_of self.now) }
    {
        self.engine.parts.exit(self.place).outcome()
    }

    /// Whether a message is kept.
    fn keeps_one(&self) -> bool
        ensures { result ≡ is_some (exit_of self.now).kept }
    {
        self.engine.parts.exit(self.place).kept().is_some()
    }

    /// Whether there is a message, where that is known.
    fn in_sight(&self) -> Option<bool>
        ensures { result ≡ is_in_sight (sight_of (exit_of self.now)) }
    {
        if self.keeps_one() {
            return Some(true);
        }
        match self.outcome() {
            Some(_) => Some(false),
            None if comes_near(self.engine.parts.exit(self.place).stage()) => Some(true),
            None => None,
        }
    }
}

impl<W: Runs> ReceivePort for NetExit<W> {
    ghost use Rattle.flow_net.specs.Exits.{ExitGoesOn, exit_goes_further, exit_of, exit_stays};
    ghost use Rattle.flow_moves.specs.Sights.{exit_seen};

    ghost receives = { λ port. exit_seen (exit_of port) };

    ghost goes_on = { λ old new. ExitGoesOn old new };

    ghost stays = { λ port. exit_stays port };

    ghost goes_further = { λ first mid last head tail. exit_goes_further first mid last head tail };

    ghost over = { λ first last goes. goes.over };

    fn try_receive(&mut self, alloc: Global) -> Result<Received, AllocError> {
        if !self.keeps_one() {
            self.look(alloc, true)?;
        }
        match self.take()? {
            Some(value) => Ok(Received::Message(value)),
            None => Ok(match self.outcome() {
                Some(how) => Received::Ended(how),
                None => Received::Waiting,
            }),
        }
    }

    fn available(&mut self, alloc: Global) -> Result<Option<bool>, AllocError> {
        self.look(alloc, false)?;
        Ok(self.in_sight())
    }
}
