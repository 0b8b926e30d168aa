//! Whether the links of a block are over.
ghost use Rattle.std.specs.Prelude.{◌≡◌, ◌<◌, length};
ghost use Rattle.flow_intake.specs.Port.{stage_at};
ghost use Rattle.flow_outlet.specs.End.{is_over};
ghost use Rattle.flow_block.specs.Block.{port_at};
ghost use Rattle.flow_task.specs.Turns.{are_links_over, are_outs_over, is_in_over, is_port_over};

use crate::task::{BlockTask, stage_out};
use flow_block::Block;
use flow_link::{SourceStage, TargetStage};
use flow_value::Runs;

impl<W: Runs> BlockTask<W> {
    /// Whether all links of the block are over.
    pub(crate) fn are_links_over(&self) -> bool
        ensures { result ≡ are_links_over self.now.node }
    {
        for port in 0..self.node.block().port_count() {
            if !self.is_port_over(port) {
                return false;
            }
        }
        self.are_outs_over()
    }

    /// Whether all links into a port are over.
    fn is_port_over(&self, port: usize) -> bool
        requires { port < length self.now.node.block.ports }
        ensures { result ≡ is_port_over self.now.node port }
    {
        for place in 0..self.node.block().in_count(port) {
            if !is_in_over(stage_into(self.node.block(), port, place)) {
                return false;
            }
        }
        true
    }

    /// Whether all links out of the block are over.
    fn are_outs_over(&self) -> bool
        ensures { result ≡ are_outs_over self.now.node }
    {
        for place in 0..self.outs.len() {
            if !is_out_over(stage_out(self.node.block(), place)) {
                return false;
            }
        }
        true
    }
}

/// Where the end of the link into a block at this place of a port stands.
fn stage_into(block: &Block, port: usize, place: usize) -> TargetStage
    requires port { port < length block.now.ports }
    requires there { place < length (port_at port block.now).ends }
    ensures { result ≡ stage_at place (port_at port block.now) }
{
    block.ports()[port].stage(place)
}

/// Whether the end of a link into a block refused, or has seen the link's end.
fn is_in_over(stage: TargetStage) -> bool
    ensures { result ≡ is_in_over stage }
{
    match stage {
        TargetStage::Refused(_) | TargetStage::Ended(_) => true,
        TargetStage::Free
        | TargetStage::Offered(_)
        | TargetStage::Posted(_)
        | TargetStage::Postponed(_)
        | TargetStage::Accepted(_)
        | TargetStage::Consuming(_)
        | TargetStage::Asking(_)
        | TargetStage::Holding(_)
        | TargetStage::Claiming(_)
        | TargetStage::Arrived(_)
        | TargetStage::Hand(_) => false,
    }
}

/// Whether the end of a link out of a block or an input was refused, or has ended the link.
pub(crate) fn is_out_over(stage: SourceStage) -> bool
    ensures { result ≡ is_over stage }
{
    match stage {
        SourceStage::Refused | SourceStage::Ended(_) => true,
        SourceStage::Free
        | SourceStage::Posted(_)
        | SourceStage::Out(_)
        | SourceStage::Waiting(_)
        | SourceStage::Accepted(_)
        | SourceStage::Wished(_)
        | SourceStage::AskedBy(_)
        | SourceStage::Reserved(_)
        | SourceStage::Claimed(_)
        | SourceStage::Crossing => false,
    }
}
