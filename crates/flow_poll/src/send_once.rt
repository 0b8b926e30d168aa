//! One try to send a value.
ghost use Rattle.std.specs.Prelude.{◌≡◌, IfSome, IfNone};
ghost use Rattle.flow_poll.specs.Sends.{Begins, IsSent, IsFinished, Sends, IsOne, HasOne, Waits};

use crate::send::{Delivery, SendPort, SendRefusal, Sent};
use flow_value::Value;
use std::alloc::Global;

/// Begins to send the value, if it is at hand, and looks what became of it; none where that is not known yet.
pub(crate) fn send_once<T: SendPort>(
    alloc: Global,
    port: &mut T,
    value: Option<Value>,
    may_postpone: bool,
) -> Option<Result<Delivery, SendRefusal>>
    requires { HasOne (T.sends port.old) may_postpone value }
    ensures ready { IfSome result (λ answer.
        Sends (T.has_id port.old) (T.sends port.old) may_postpone value answer (T.sends port.new)) }
    ensures waits { IfNone result (Waits (T.has_id port.old) (T.sends port.old) may_postpone value (T.sends port.new)) }
    ensures again { IfNone result (HasOne (T.sends port.new) may_postpone None) }
    ensures goes_on { T.goes_on port.old port.new }
{
    match value {
        Some(value) => begin_once(alloc, port, value, may_postpone),
        None => look_once(alloc, port),
    }
}

/// Begins to send the value, and looks what became of it.
fn begin_once<T: SendPort>(
    alloc: Global,
    port: &mut T,
    value: Value,
    may_postpone: bool,
) -> Option<Result<Delivery, SendRefusal>>
    ensures ready { IfSome result (λ answer. IsSent (T.has_id port.old) (T.sends port.old)
        (record { value = value; may_postpone = may_postpone }) answer (T.sends port.new)) }
    ensures waits { IfNone result (Begins (record { value = value; may_postpone = may_postpone }) (T.has_id port.old)
        (T.sends port.old) (T.sends port.new)) }
    ensures goes_on { T.goes_on port.old port.new }
{
    match port.begin(alloc, value, may_postpone) {
        Ok(()) => look_once(alloc, port),
        Err((value, fault)) => Some(Err(SendRefusal::NotBegun(value, fault))),
    }
}

/// Looks what became of the value that is under way; none where that is not known yet.
fn look_once<T: SendPort>(alloc: Global, port: &mut T) -> Option<Result<Delivery, SendRefusal>>
    requires { IsOne (T.sends port.old).begun }
    ensures ready { IfSome result (λ answer. IsFinished (T.sends port.old) answer (T.sends port.new)) }
    ensures waits { IfNone result (T.sends port.new ≡ T.sends port.old) }
    ensures goes_on { T.goes_on port.old port.new }
{
    match port.look(alloc) {
        Ok(Sent::Accepted) => Some(Ok(Delivery::Accepted)),
        Ok(Sent::Declined(value)) => Some(Ok(Delivery::Declined(value))),
        Ok(Sent::Permanently(value)) => Some(Ok(Delivery::Permanently(value))),
        Ok(Sent::Waiting) => None,
        Ok(Sent::Idle) => unreachable!(),
        Err(_) => Some(Err(SendRefusal::Memory)),
    }
}
