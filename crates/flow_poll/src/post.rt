//! Sends a value that is taken at once or comes back.
ghost use Rattle.std.specs.Prelude.{◌≡◌, ⊤, false, IsSome, IsSomeAnd};
ghost use Rattle.flow_poll.specs.Held.{posting, to_post};
ghost use Rattle.flow_poll.specs.Sends.{Sends, HasOne};

use crate::send::{Delivery, SendPort, SendRefusal};
use crate::send_once::send_once;
use flow_value::Value;
use futures::Future;
use futures::task::{Context, Poll};
use std::alloc::Global;

/// Sends a value that is taken at once or comes back: it may not be put off.
///
/// Microsoft: `DataflowBlock.Post`.
#[derive(Drop)]
pub struct Post<T> {
    alloc: Global,
    port: Option<T>,
    /// The value, until it is begun.
    value: Option<Value>,
}

impl<T: SendPort> Post<T> {
    /// Sends this value by this port. Its polls take their memory from the allocator.
    pub fn new(alloc: Global, port: T, value: Value) -> Post<T>
        ensures port { posting result ≡ Some port }
        ensures value { to_post result ≡ Some value }
    {
        Post {
            alloc,
            port: Some(port),
            value: Some(value),
        }
    }

    /// The port of a future that is not ready. A value that was begun stays under way; before the first poll it is not
    /// begun, and is let go.
    pub fn into_port(self) -> T
        requires { IsSome (posting self) }
        ensures { posting self ≡ Some result }
    {
        let Post { port, .. } = self;
        let Some(port) = port else { unreachable!() };
        port
    }
}

impl<T: SendPort> Future for Post<T> {
    type Output = (T, Result<Delivery, SendRefusal>);

    ghost can_poll = { λ f. IsSomeAnd (posting f) (λ port. HasOne (T.sends port) false (to_post f)) };

    // It waits for whatever may happen: a pending poll has yielded.
    ghost needs = { λ _ _. ⊤ };

    ghost gives = { λ f given. IsSomeAnd (posting f) (λ port.
        Sends (T.has_id port) (T.sends port) false (to_post f) given.1 (T.sends given.0) × T.goes_on port given.0) };

    fn poll(&mut self, cx: &mut Context<'_>) -> Poll<Self::Output> {
        let Some(mut port) = self.port.take() else {
            unreachable!()
        };
        match send_once(self.alloc, &mut port, self.value.take(), false) {
            Some(answer) => Poll::Ready((port, answer)),
            None => {
                self.port = Some(port);
                cx.yield_now()
            }
        }
    }
}
