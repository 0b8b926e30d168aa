//! The networks of these tests, scattered and gathered.
ghost use Rattle.std.specs.Prelude.{◌≡◌};
ghost use Rattle.flow_board.specs.Parts.{AllEntriesOf, AllExitsOf, AllTasksOf, watched_board};

use flow_board::{Parts, Watch, gather, scatter};
use flow_drawn::inputs;
use flow_link::Mark;
use flow_net::{Net, Settled};
use flow_value::Steps;
use std::alloc::Global;
use std::process::Abort;

/// A buffer, a transform that doubles numbers, and an action that records them.
pub(crate) const CHAIN: &str =
    "in* buffer, double transform(mul 2), out action(id), in => double, double => out";

/// The chain whose transform has two lanes.
pub(crate) const LANED: &str =
    "in* buffer, double transform(mul 2) lanes 2, out action(id), in => double, double => out";

/// What is posted to the chain.
pub(crate) const NUMBERS: &str = "in=1 in=2 in=3";

/// A buffer, a transform that reads numbers, and an action that records them.
pub(crate) const READS: &str = "in* buffer, t transform(int), out action(), in => t, t => out";

/// What is posted to it.
pub(crate) const TEXTS: &str = "in,1 in,2 in,3";

/// A buffer that leads out of the network.
pub(crate) const BUFFER: &str = "b* buffer output true";

/// A buffer with room for one message, which leads out of the network.
pub(crate) const BOUNDED: &str = "b* buffer capacity 1 output true";

/// Two buffers, of which one stays open, and a transform with two lanes whose results lead out of the network: the tasks of three blocks, an
/// input and two lanes, an entry, and an exit, with these numbers in this order.
pub(crate) const EACH_SORT: &str =
    "a* buffer, b* buffer, t transform(int) lanes 2 output true, a => t, b => t";

/// What is posted to it. The input of its second buffer stays open.
pub(crate) const EACH_POSTED: &str = "a,1 a,2 b?";

/// A block that takes one message.
pub(crate) const ONCE: &str = "b* write_once";

/// An action that reads numbers.
pub(crate) const READER: &str = "b* action(int)";

/// The parts of the network that is drawn so, with these records, and a watch of its first block.
pub(crate) fn watched(
    rt: &impl Abort,
    alloc: Global,
    network: &str,
    records: &str,
) -> (Parts<Steps>, Watch<Steps>)
    ensures tasks_of { AllTasksOf result.0.board result.0.tasks.items }
    ensures entries_of { AllEntriesOf result.0.board result.0.entries.items }
    ensures exits_of { AllExitsOf result.0.board result.0.exits.items }
    ensures watch_of { watched_board result.1 ≡ result.0.board }
{
    let Some(inputs) = inputs(alloc, network, records) else {
        panic!(rt; "no plan");
    };
    let Ok(net) = inputs.start(alloc) else {
        panic!(rt; "out of memory");
    };
    let Ok(scattered) = scatter(alloc, net) else {
        panic!(rt; "out of memory");
    };
    let (parts, watches) = scattered.into_parts();
    let Some(watch) = watches.into_iter().next() else {
        panic!(rt; "no watch");
    };
    (parts, watch)
}

/// The parts of the network that is drawn so, with these records.
pub(crate) fn scattered(
    rt: &impl Abort,
    alloc: Global,
    network: &str,
    records: &str,
) -> Parts<Steps>
    ensures tasks_of { AllTasksOf result.board result.tasks.items }
    ensures entries_of { AllEntriesOf result.board result.entries.items }
    ensures exits_of { AllExitsOf result.board result.exits.items }
{
    let (parts, _) = watched(rt, alloc, network, records);
    parts
}

/// The parts of a network, scattered once more.
pub(crate) fn again(rt: &impl Abort, alloc: Global, net: Net<Steps>) -> Parts<Steps>
    ensures tasks_of { AllTasksOf result.board result.tasks.items }
    ensures entries_of { AllEntriesOf result.board result.entries.items }
    ensures exits_of { AllExitsOf result.board result.exits.items }
{
    let Ok(scattered) = scatter(alloc, net) else {
        panic!(rt; "out of memory");
    };
    let (parts, _) = scattered.into_parts();
    parts
}

/// The network of these parts, all of which are there.
pub(crate) fn gathered(rt: &impl Abort, alloc: Global, parts: Parts<Steps>) -> Net<Steps>
    requires tasks_of { AllTasksOf parts.board parts.tasks.items }
    requires entries_of { AllEntriesOf parts.board parts.entries.items }
    requires exits_of { AllExitsOf parts.board parts.exits.items }
{
    let Ok(net) = gather(alloc, parts) else {
        panic!(rt; "the parts are not gathered");
    };
    net
}

/// Does all that is left to do.
pub(crate) fn settle(rt: &impl Abort, alloc: Global, net: &mut Net<Steps>) {
    assert!(rt; matches!(net.settle(alloc, 1_000), Ok(Settled::Quiet)));
}

/// The marks of the block with this name.
pub(crate) fn journal<'a>(rt: &impl Abort, net: &'a Net<Steps>, name: &str) -> &'a [Mark] {
    let Some(block) = net.plan().find(name) else {
        panic!(rt; "no block {name}");
    };
    net.journal(block)
}
