//! The blocks to which callers post, and from which they receive.
ghost use Rattle.std.specs.Prelude.{◌≡◌};
ghost use Rattle.flow_link.specs.Plan.{link_in};
ghost use Rattle.flow_link.specs.declared.plan.LinkSource.TheVariants.{Input};
ghost use Rattle.flow_task.specs.Parts.{block_of, board_layout, entry_board, entry_link, exit_board, exit_link};

use crate::board::Board;
use crate::numbered::{Entry, Exit};
use flow_link::LinkSource;
use flow_value::Runs;

impl<W: Runs> Entry<W> {
    /// The number of the block to which it posts.
    pub fn block(&self, board: &Board<W>) -> usize
        requires of { entry_board self.now ≡ board.now }
        ensures { (link_in (board_layout board.now).links (entry_link self.now)).source ≡ Input result }
    {
        match board.rest.plan.link(self.input.link).source {
            LinkSource::Input(block) => block,
            LinkSource::Block(_) => unreachable!(),
        }
    }
}

impl<W: Runs> Exit<W> {
    /// The number of the block from which it receives.
    pub fn block(&self, board: &Board<W>) -> usize
        requires of { exit_board self.now ≡ board.now }
        ensures { block_of (link_in (board_layout board.now).links (exit_link self.now)).source ≡ result }
    {
        match board.rest.plan.link(self.link).source {
            LinkSource::Block(block) | LinkSource::Input(block) => block,
        }
    }
}
