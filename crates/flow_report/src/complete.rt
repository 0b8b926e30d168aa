//! Tells whether a run has gone through: every block is done, and nothing waits at an input.
ghost use Rattle.std.specs.Prelude.{◌≡◌, ◌<◌, length};
ghost use Rattle.flow_report.specs.Complete.{is_complete, has_gone_through, nothing_waits};
ghost use Rattle.flow_report.specs.Report.{run_in};

use crate::report::waiting;
use crate::seen::{block_at, block_count};
use flow_net::{Net, State};
use flow_value::Steps;

/// Whether all blocks are done, and nothing waits at any input.
pub fn is_complete(net: &Net<Steps>) -> bool
    ensures { result ≡ is_complete (run_in net.now) }
{
    for block in 0..block_count(net) {
        if !has_gone_through(net, block) {
            return false;
        }
    }
    true
}

fn has_gone_through(net: &Net<Steps>, block: usize) -> bool
    requires { block < length (run_in net.now).layout.blocks }
    ensures { result ≡ has_gone_through (run_in net.now) block }
{
    matches!(net.state(block), State::Done) && nothing_waits(net, block)
}

/// Whether this block is no input, or took all that was posted there.
fn nothing_waits(net: &Net<Steps>, block: usize) -> bool
    requires { block < length (run_in net.now).layout.blocks }
    ensures { result ≡ nothing_waits (run_in net.now) block }
{
    if block_at(net, block).input {
        waiting(net, block).is_empty()
    } else {
        true
    }
}
