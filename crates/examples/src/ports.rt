//! Prices are sent to a network while it runs, and what it makes of them is taken as it comes. In C#:
//!
//!     var parse = new TransformBlock<string, int>(int.Parse, new ExecutionDataflowBlockOptions { BoundedCapacity = 2 });
//!     var cents = new TransformBlock<int, int>(price => price * 100);
//!     parse.LinkTo(cents, new DataflowLinkOptions { PropagateCompletion = true });
//!     foreach (var price in prices)
//!     {
//!         await parse.SendAsync(price);
//!         if (cents.TryReceive(out var early)) Console.WriteLine(early);
//!     }
//!     parse.Complete();
//!     while (await cents.OutputAvailableAsync()) Console.WriteLine(await cents.ReceiveAsync());

use crate::shop::shop;
use anyhow::{Result, anyhow};
use bevelrose::{
    Ending, Net, NetEntry, NetExit, ReceivePort, Received, SendPort, Sent, Steps, Text, Value,
};
use std::alloc::Global;

/// The most events between two looks.
const STEPS: u64 = 1_000;

pub(crate) fn main(rt: HostRuntime) -> Result<()> {
    let alloc = rt.alloc();
    let mut net = shop(alloc)?;
    for price in ["12", "7", "120", "45"] {
        let value = Value::Text(Text::from_str(alloc, price)?);
        let mut entry = entry(net)?;
        println!(rt; "{price}: {}", send(alloc, &mut entry, value)?)?;
        let mut exit = exit(entry.into_net())?;
        if let Received::Message(cents) = exit.try_receive(alloc)? {
            println!(rt; "  {cents:?}")?;
        }
        net = exit.into_net();
    }
    let mut entry = entry(net)?;
    entry.finish(Ending::Complete)?;
    let mut exit = exit(entry.into_net())?;
    for _ in 0..u64::MAX {
        let Received::Message(cents) = exit.try_receive(alloc)? else {
            break;
        };
        println!(rt; "  {cents:?}")?;
    }
    println!(rt; "done after {} prices", exit.received().len())?;
    Ok(())
}

/// The way in of the first block.
fn entry(net: Net<Steps>) -> Result<NetEntry<Steps>> {
    net.entry(0, STEPS).map_err(|_| anyhow!("no such input"))
}

/// The way out of the second.
fn exit(net: Net<Steps>) -> Result<NetExit<Steps>> {
    net.exit(1, STEPS).map_err(|_| anyhow!("no such exit"))
}

/// Sends a value, and tells what became of it as far as that is known.
fn send(alloc: Global, entry: &mut NetEntry<Steps>, value: Value) -> Result<&'static str> {
    if let Err((_, fault)) = entry.begin(alloc, value, true) {
        return Err(fault.into());
    }
    Ok(match entry.look(alloc)? {
        Sent::Accepted => "taken",
        Sent::Idle | Sent::Waiting => "waits",
        Sent::Declined(_) | Sent::Permanently(_) => "refused",
    })
}
