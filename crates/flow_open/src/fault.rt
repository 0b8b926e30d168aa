//! What there is after a network was run open.

use crate::sender::Sender;
use flow_board::Parts;
use flow_net::Net;
use flow_value::Runs;

/// Why a run has ended.
#[derive(Clone, Copy, Debug, PartialEq, Eq)]
pub enum Ended {
    /// Nothing moved any more.
    AtRest,
    /// Memory was out.
    OutOfMemory,
    /// There were not as many senders as inputs that stay open, or not as many receivers as exits. Nothing was sent or received.
    Unmatched,
}

/// A network that was run open, and what its senders and receivers are after that.
#[derive(Drop)]
pub struct Opened<W: Runs, S, F> {
    pub net: Net<W>,
    pub ended: Ended,
    pub senders: Vec<Sender<S>>,
    pub receivers: Vec<F>,
}

/// Where there is no network after a run, or it was not run. Memory is out, and all comes back.
#[derive(Drop)]
pub enum OpenFault<W: Runs, S, F> {
    /// The network was not run.
    Net(Net<W>, Vec<Sender<S>>, Vec<F>),
    /// It was run, and these are its parts. They are all there, and `gather` may put them together later.
    Parts(Parts<W>, Vec<Sender<S>>, Vec<F>),
}
