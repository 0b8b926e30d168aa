//! What became of a block, asked by its name.
ghost use Rattle.std.specs.Prelude.{◌≡◌, ◌↔◌, IfSome, None};
ghost use Rattle.flow_link.specs.Trace.{trace_of};
ghost use Rattle.flow_net.specs.Net.{layout_in, run_of};
ghost use Rattle.flow_net.specs.States.{state_by};
ghost use Rattle.flow_front.specs.Named.{block_named};

use flow_net::{Net, State};
use flow_value::{Runs, Value};

/// The results that the block with this name keeps, in order; none where no block has the name.
pub fn record_of<'a, W: Runs>(net: &'a Net<W>, name: &str) -> Option<&'a [Value]>
    ensures none { (result ≡ None) ↔ (block_named (layout_in net.now) name.now ≡ None) }
    ensures its { IfSome result (λ kept. IfSome (block_named (layout_in net.now) name.now) (λ block.
        kept.now ≡ (trace_of (run_of W.meaning net.now) block).recorded)) }
{
    let block = net.plan().find(name)?;
    Some(net.record(block))
}

/// What became of the block with this name; none where no block has it.
pub fn state_of<W: Runs>(net: &Net<W>, name: &str) -> Option<State>
    ensures none { (result ≡ None) ↔ (block_named (layout_in net.now) name.now ≡ None) }
    ensures its { IfSome result (λ state. IfSome (block_named (layout_in net.now) name.now) (λ block.
        state ≡ state_by (run_of W.meaning net.now) block)) }
{
    let block = net.plan().find(name)?;
    Some(net.state(block))
}
