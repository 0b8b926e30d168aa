//! Ways into a network and out of it, and futures over them.
//!
//! A [`SendPort`] takes values, one at a time, and tells what became of each. A [`ReceivePort`] gives messages. An
//! [`Actor`] goes on by turns. What is done between two calls is the business of whoever has the port or the actor, so
//! the futures serve a network on one owner and one on threads alike.
//!
//! Each future owns what it waits for, and gives it back with its answer. While it is pending it has yielded: it is polled
//! again in its turn, and waits for no wake. Once it is ready it may not be polled any more.
//!
//! future            polls                       is ready
//! Post              begin, then look            with what became of the value, which may not be put off
//! SendAsync         begin, then look            with what became of the value, which may be put off
//! Receive           try_receive                 with a message, or with the end
//! OutputAvailable   available                   once a message or the end is in sight
//! Completion        completion                  once the block has ended
//! Running           a turn                      once the actor has not moved, or its turns are used up
//! Crew              a turn of each, in order    once none has moved, or their turns are used up
//!
//! All but Completion are also ready where there is no memory. Then what they wait for is as it was, and may be tried again.
//!
//! Proved: each future, in the words of the port that it was made with: what became of the value, what was received,
//! how it ended; what comes back is the port or actor that was handed in. A way in, a way out and an actor are
//! traits, whose laws the ports of networks and boards meet.
//! Tested: that futures become ready; that ports take what they may where memory is ample.
//! Neither: that a pending future ever becomes ready; what an actor counts as an event.
#![tactic(auto)]

mod actor;
mod completing;
mod crew;
mod post;
mod receive;
mod receiving;
mod running;
mod send;
mod send_async;
mod send_once;

pub use actor::{Actor, TurnState, Turned};
pub use completing::Completion;
pub use crew::Crew;
pub use post::Post;
pub use receive::{Receipt, ReceivePort, Received};
pub use receiving::{OutputAvailable, Receive};
pub use running::Running;
pub use send::{Delivery, SendFault, SendPort, SendRefusal, Sent};
pub use send_async::SendAsync;
