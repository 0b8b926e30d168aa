//! What of a round may go to another thread, and what threads may share. Each law stands on a function that does nothing: whoever calls
//! it has the whole law.
ghost use Rattle.std.specs.Thread.{IsSend, IsSync};
ghost use Rattle.flow_crew.specs.contracts.item.Item as item;

use crate::item::Round;
use flow_board::tasks_cross;
use flow_value::Runs;

/// A type whose values may go to another thread.
pub(crate) fn crosses<T: Send>()
    ensures { IsSend T.row }
{}

/// A type whose values threads may share.
pub(crate) fn is_shared<T: Sync>()
    ensures { IsSync T.row }
{}

/// A task of a round may go to another thread.
pub(crate) fn items_cross<W: Runs + Send + Sync, J: Round<W>>()
    ensures { IsSend (item.the_row W.row J.row (record { meaning = W.meaning }) (record { eq = W.eq }) (record {})
        (record { board = J.board; all = J.all; came = J.came })) }
{
    tasks_cross::<W>();
}
