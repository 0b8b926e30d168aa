//! Blocks that a caller knows by their traits alone, and that complete after other calls.
ghost use Rattle.std.specs.Prelude.{◌≡◌, ℕ, ◌<◌, false};
ghost use Rattle.flow_link.specs.TargetCalls.{is_awaited};
ghost use Rattle.flow_link.specs.declared.stage.TargetStage.TheVariants.{Free};
ghost use Rattle.flow_kinds.specs.Steady.{PortsStay, AwaitsTheSame};

use crate::completions::first;
use flow_drawn::inputs;
use flow_history::{PropagatorBlock, SteadyTarget};
use flow_link::{LinkId, PortId};
use flow_value::{MessageHeader, MessageStatus, Parcel, Value};
use std::alloc::Global;
use std::process::Abort;

/// The target takes the first message over this link.
fn takes_first<T: SteadyTarget>(rt: &impl Abort, alloc: Global, target: &mut T, link: LinkId)
    requires { (other : ℕ) → T.target_stage target.old other ≡ Free }
    ensures ports { PortsStay T.port_count T.port_into target.old target.new }
    ensures rests { (other : ℕ) → is_awaited (T.target_stage target.new other) ≡ false }
{
    let Some(one) = MessageHeader::new(1) else {
        panic!(rt; "no id");
    };
    let Ok(five) = Parcel::new(alloc, Value::Int(5)) else {
        panic!(rt; "out of memory");
    };
    let Ok(MessageStatus::Accepted) = target.offer_message(alloc, link, one, false) else {
        panic!(rt; "it does not take the message");
    };
    target.hand_over(link, one, five);
}

/// The block makes what it can, offers it, and has not ended.
fn goes_on<B: PropagatorBlock>(rt: &impl Abort, alloc: Global, block: &mut B)
    ensures { AwaitsTheSame B.port_count B.port_into B.target_stage block.old block.new }
{
    let Ok(_made) = block.make(alloc) else {
        panic!(rt; "it makes nothing");
    };
    let Ok(_offer) = block.next_offer(alloc) else {
        panic!(rt; "it offers nothing");
    };
    if block.completion().is_some() {
        panic!(rt; "it has ended");
    }
}

/// The block takes a message over this link, goes on, and completes this port.
fn completes_later<B: PropagatorBlock>(
    rt: &impl Abort,
    alloc: Global,
    block: &mut B,
    link: LinkId,
    port: PortId,
)
    requires there { port < B.port_count block.old }
    requires free { (other : ℕ) → B.target_stage block.old other ≡ Free }
{
    takes_first(rt, alloc, block, link);
    goes_on(rt, alloc, block);
    block.complete(port);
}

#[test]
fn a_buffer_completes_after_other_calls(rt: HostRuntime) {
    let alloc = rt.alloc();
    let Some(inputs) = inputs(alloc, "b* buffer capacity 1 output true", "b?") else {
        panic!(&rt; "no plan");
    };
    let mut buffer = first(&rt, alloc, inputs.plan());
    if buffer.block().port_count() == 0 {
        panic!(&rt; "no port");
    }
    completes_later(&rt, alloc, &mut buffer, 0, 0);
    assert!(rt; buffer.block().ports().iter().all(|port| !port.is_open()));
}
