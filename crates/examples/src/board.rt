//! One thread sends prices into a network, another prints what comes of them, and two more run its blocks. In C#:
//!
//!     var two = new ConcurrentExclusiveSchedulerPair(TaskScheduler.Default, 2).ConcurrentScheduler;
//!     var parse = new TransformBlock<string, int>(int.Parse,
//!         new ExecutionDataflowBlockOptions { BoundedCapacity = 2, TaskScheduler = two });
//!     var cents = new TransformBlock<int, int>(price => price * 100,
//!         new ExecutionDataflowBlockOptions { TaskScheduler = two });
//!     parse.LinkTo(cents, new DataflowLinkOptions { PropagateCompletion = true });
//!     var sending = Task.Run(async () =>
//!     {
//!         try { foreach (var price in prices) await parse.SendAsync(price); }
//!         finally { parse.Complete(); }
//!     });
//!     while (await cents.OutputAvailableAsync()) Console.WriteLine(await cents.ReceiveAsync());
//!     await Task.WhenAll(sending, parse.Completion, cents.Completion);

use crate::shop::shop;
use anyhow::{Result, bail};
use bevelrose::{Sender, Text, Value, run_open, state_of};
use std::sync::Wait;
use std::thread::Threads;
use std::time::Clock;

/// Takes what a `main` of its own is given, by reference.
pub(crate) fn main<R: Threads + Wait + Clock + Print + AllocGlobal + Sync>(rt: &R) -> Result<()> {
    let alloc = rt.alloc();
    let mut prices = Vec::new(alloc);
    for price in ["12", "7", "120", "45"] {
        prices.push(Value::Text(Text::from_str(alloc, price)?))?;
    }
    let mut printed = Ok(());
    let print = |cents: Value| {
        if printed.is_ok() {
            printed = println!(rt; "{cents:?}");
        }
    };
    let senders = vec![in alloc; Sender::new(prices.into_iter())]?;
    let mut receivers = Vec::new(alloc);
    let Ok(()) = receivers.push(print) else {
        bail!("out of memory");
    };
    let Ok(opened) = run_open(rt, alloc, shop(alloc)?, 2, senders, receivers) else {
        bail!("out of memory");
    };
    println!(rt; "{:?}", opened.ended)?;
    println!(rt; "parse: {:?}", state_of(&opened.net, "parse"))?;
    println!(rt; "cents: {:?}", state_of(&opened.net, "cents"))?;
    drop(opened);
    printed?;
    Ok(())
}
