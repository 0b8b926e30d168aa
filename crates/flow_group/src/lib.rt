//! What a block with several ports makes of the messages that wait there.
//!
//! kind           what it makes a row of             when
//! join           the first message of each port     a message waits at each port
//! batched join   the messages that came in first,   so many came in, or some did and all ports have completed
//!                whatever their ports
//!
//! Each row is copied first, and then its messages are taken off their ports, all together: between these two steps a
//! block may put the row where it goes, and nothing has changed where that fails. The room of the messages comes back when
//! the row is given, which is the block's to tell.
//!
//! Proved: tuples of joins are whole and in order; groups of batched joins are cut in the order of arrival; the round
//! of a reserving join asks by block number, claims only when all are held, and releases all once one is gone. Where
//! memory is out, nothing has changed.
//! Tested: that calls succeed where memory is ample.
#![tactic(auto)]

mod arrivals;
mod group;
mod laws;
mod round;
mod tuple;

pub use arrivals::Arrivals;
pub use group::{copy_group, has_group, make_group, take_group};
pub use laws::{
    groups_are_cut_in_order, groups_are_kept, groups_in_order_and_not, groups_tell, holder_goes_on,
    journals_tell_arrivals, levels_are_told, no_tuple_is_torn, nothing_more_is_made,
    ports_give_what_is_taken, round_moves_tell, rounds_are_kept, tuples_are_kept, tuples_tell,
    turns_are_kept,
};
pub use round::{Round, RoundStep, Source, none_comes};
pub use tuple::{all_ended, copy_tuple, has_tuple, is_join_complete, make_tuple, take_tuple};
