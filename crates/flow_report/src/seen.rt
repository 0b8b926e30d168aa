//! What a report reads of a network.
ghost use Rattle.std.specs.Prelude.{◌≡◌, ◌<◌, ◌++◌, length, HoldsAt};
ghost use Rattle.flow_link.specs.Layout.{IsLaidOut};
ghost use Rattle.flow_link.specs.Plan.{port_count};
ghost use Rattle.flow_link.specs.Trace.{block_of, held_at, left_at};
ghost use Rattle.flow_report.specs.Report.{run_in};

use flow_link::{BlockDef, Link, LinkId};
use flow_net::Net;
use flow_value::{Steps, Value};

pub(crate) fn block_count(net: &Net<Steps>) -> usize
    ensures { result ≡ length (run_in net.now).layout.blocks }
{
    net.plan().block_count()
}

pub(crate) fn block_at(net: &Net<Steps>, number: usize) -> &BlockDef<Steps>
    requires { number < length (run_in net.now).layout.blocks }
    ensures { HoldsAt (λ block. result.now ≡ block) (run_in net.now).layout.blocks number }
{
    net.plan().block(number)
}

/// How many links there are; those of inputs and exits come last.
pub(crate) fn link_count(net: &Net<Steps>) -> LinkId
    ensures count { result ≡ length (run_in net.now).layout.links }
    ensures laid_out { IsLaidOut (run_in net.now).layout.blocks (run_in net.now).layout.links }
{
    net.plan().link_count()
}

pub(crate) fn link_at(net: &Net<Steps>, id: LinkId) -> Link
    requires { id < length (run_in net.now).layout.links }
    ensures { HoldsAt (λ link. result ≡ link) (run_in net.now).layout.links id }
{
    net.plan().link(id)
}

/// What a port holds, in two parts.
pub(crate) fn held_at(net: &Net<Steps>, block: usize, port: u32) -> (&[Value], &[Value])
    requires block { block < length (run_in net.now).layout.blocks }
    requires port { port < port_count (block_of (run_in net.now) block) }
    ensures { result.0.now ++ result.1.now ≡ held_at (run_in net.now) block port }
{
    net.held(block, port).as_slices()
}

/// The outputs that weren't given, in two parts.
pub(crate) fn left_at(net: &Net<Steps>, block: usize) -> (&[Value], &[Value])
    requires { block < length (run_in net.now).layout.blocks }
    ensures { result.0.now ++ result.1.now ≡ left_at (run_in net.now) block }
{
    net.left(block)
}
