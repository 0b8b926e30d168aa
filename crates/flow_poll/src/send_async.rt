//! Sends a value that may be put off until there is room for it.
ghost use Rattle.std.specs.Prelude.{◌≡◌, ⊤, true, IsSome, IsSomeAnd};
ghost use Rattle.flow_poll.specs.Held.{sending, to_send};
ghost use Rattle.flow_poll.specs.Sends.{Sends, HasOne};

use crate::send::{Delivery, SendPort, SendRefusal};
use crate::send_once::send_once;
use flow_value::Value;
use futures::Future;
use futures::task::{Context, Poll};
use std::alloc::Global;

/// Sends a value that may be put off until there is room for it.
///
/// Microsoft: `DataflowBlock.SendAsync`.
#[derive(Drop)]
pub struct SendAsync<T> {
    alloc: Global,
    port: Option<T>,
    /// The value, until it is begun.
    value: Option<Value>,
}

impl<T: SendPort> SendAsync<T> {
    /// Sends this value by this port. Its polls take their memory from the allocator.
    pub fn new(alloc: Global, port: T, value: Value) -> SendAsync<T>
        ensures port { sending result ≡ Some port }
        ensures value { to_send result ≡ Some value }
    {
        SendAsync {
            alloc,
            port: Some(port),
            value: Some(value),
        }
    }

    /// The port of a future that is not ready. A value that was begun stays under way; before the first poll it is not
    /// begun, and is let go.
    pub fn into_port(self) -> T
        requires { IsSome (sending self) }
        ensures { sending self ≡ Some result }
    {
        let SendAsync { port, .. } = self;
        let Some(port) = port else { unreachable!() };
        port
    }
}

impl<T: SendPort> Future for SendAsync<T> {
    type Output = (T, Result<Delivery, SendRefusal>);

    ghost can_poll = { λ f. IsSomeAnd (sending f) (λ port. HasOne (T.sends port) true (to_send f)) };

    // It waits for whatever may happen: a pending poll has yielded.
    ghost needs = { λ _ _. ⊤ };

    ghost gives = { λ f given. IsSomeAnd (sending f) (λ port.
        Sends (T.has_id port) (T.sends port) true (to_send f) given.1 (T.sends given.0) × T.goes_on port given.0) };

    fn poll(&mut self, cx: &mut Context<'_>) -> Poll<Self::Output> {
        let Some(mut port) = self.port.take() else {
            unreachable!()
        };
        match send_once(self.alloc, &mut port, self.value.take(), true) {
            Some(answer) => Poll::Ready((port, answer)),
            None => {
                self.port = Some(port);
                cx.yield_now()
            }
        }
    }
}
