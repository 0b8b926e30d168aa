//! Waits for a message, or for the end of a way out.
ghost use Rattle.std.specs.Prelude.{◌≡◌, ⊤, IsSome, IsSomeAnd};
ghost use Rattle.flow_poll.specs.Held.{receiving, watching};
ghost use Rattle.flow_poll.specs.Receives.{Receives, Awaits};

use crate::receive::{Receipt, ReceivePort, Received};
use futures::Future;
use futures::task::{Context, Poll};
use std::alloc::{AllocError, Global};

/// Waits for the next message.
///
/// Microsoft: `DataflowBlock.ReceiveAsync`.
#[derive(Drop)]
pub struct Receive<T> {
    alloc: Global,
    port: Option<T>,
}

impl<T: ReceivePort> Receive<T> {
    /// Its polls take their memory from the allocator.
    pub fn new(alloc: Global, port: T) -> Receive<T>
        ensures { receiving result ≡ Some port }
    {
        Receive {
            alloc,
            port: Some(port),
        }
    }

    /// The port of a future that is not ready.
    pub fn into_port(self) -> T
        requires { IsSome (receiving self) }
        ensures { receiving self ≡ Some result }
    {
        let Receive { port, .. } = self;
        let Some(port) = port else { unreachable!() };
        port
    }
}

impl<T: ReceivePort> Future for Receive<T> {
    type Output = (T, Result<Receipt, AllocError>);

    ghost can_poll = { λ f. IsSomeAnd (receiving f) (λ _. ⊤) };

    // It waits for whatever may happen: a pending poll has yielded.
    ghost needs = { λ _ _. ⊤ };

    ghost gives = { λ f given. IsSomeAnd (receiving f) (λ port.
        Receives given.1 (T.receives port) (T.receives given.0) × T.goes_on port given.0) };

    fn poll(&mut self, cx: &mut Context<'_>) -> Poll<Self::Output> {
        let Some(mut port) = self.port.take() else {
            unreachable!()
        };
        match port.try_receive(self.alloc) {
            Ok(Received::Message(value)) => Poll::Ready((port, Ok(Receipt::Message(value)))),
            Ok(Received::Ended(how)) => Poll::Ready((port, Ok(Receipt::Ended(how)))),
            Ok(Received::Waiting) => {
                self.port = Some(port);
                cx.yield_now()
            }
            Err(error) => Poll::Ready((port, Err(error))),
        }
    }
}

/// Waits until a message is there, or none will come: true where one is there.
///
/// Microsoft: `DataflowBlock.OutputAvailableAsync`.
#[derive(Drop)]
pub struct OutputAvailable<T> {
    alloc: Global,
    port: Option<T>,
}

impl<T: ReceivePort> OutputAvailable<T> {
    /// Its polls take their memory from the allocator.
    pub fn new(alloc: Global, port: T) -> OutputAvailable<T>
        ensures { watching result ≡ Some port }
    {
        OutputAvailable {
            alloc,
            port: Some(port),
        }
    }

    /// The port of a future that is not ready.
    pub fn into_port(self) -> T
        requires { IsSome (watching self) }
        ensures { watching self ≡ Some result }
    {
        let OutputAvailable { port, .. } = self;
        let Some(port) = port else { unreachable!() };
        port
    }
}

impl<T: ReceivePort> Future for OutputAvailable<T> {
    type Output = (T, Result<bool, AllocError>);

    ghost can_poll = { λ f. IsSomeAnd (watching f) (λ _. ⊤) };

    // It waits for whatever may happen: a pending poll has yielded.
    ghost needs = { λ _ _. ⊤ };

    ghost gives = { λ f given. IsSomeAnd (watching f) (λ port.
        Awaits given.1 (T.receives port) (T.receives given.0) × T.goes_on port given.0) };

    fn poll(&mut self, cx: &mut Context<'_>) -> Poll<Self::Output> {
        let Some(mut port) = self.port.take() else {
            unreachable!()
        };
        match port.available(self.alloc) {
            Ok(Some(is_there)) => Poll::Ready((port, Ok(is_there))),
            Ok(None) => {
                self.port = Some(port);
                cx.yield_now()
            }
            Err(error) => Poll::Ready((port, Err(error))),
        }
    }
}
