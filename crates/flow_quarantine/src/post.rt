//! What one record posts.
ghost use Rattle.std.specs.Prelude.{◌≡◌, IfOk};
ghost use Rattle.flow_link.specs.Planned.{layout_of};
ghost use Rattle.flow_net.specs.Net.{layout_in};

use crate::aside::Aside;
use csv::ByteRecord;
use flow_front::Inputs;
use flow_link::Plan;
use flow_net::{Net, NetParts};
use flow_value::{Steps, Text, Value};
use std::alloc::{AllocError, Global};

/// The input that a record names, and its value; or why it is refused, by the same tests and in the same order as where all
/// records are read.
pub(crate) fn read_fields<'r>(
    plan: &Plan<Steps>,
    row: &'r ByteRecord,
) -> Result<(&'r str, &'r str), Aside> {
    let (2, Some(name), Some(text)) = (row.len(), row.get(0), row.get(1)) else {
        return Err(Aside::Csv);
    };
    let (Ok(name), Ok(text)) = (str::from_utf8(name), str::from_utf8(text)) else {
        return Err(Aside::NotUtf8);
    };
    if is_input(plan, name) {
        Ok((name, text))
    } else {
        Err(Aside::UnknownInput)
    }
}

fn is_input(plan: &Plan<Steps>, name: &str) -> bool {
    match plan.find(name) {
        Some(number) => number < plan.block_count() && plan.block(number).input,
        None => false,
    }
}

/// A network of this plan, to whose input with this name this text is posted. Each input completes.
pub(crate) fn start_alone(
    alloc: Global,
    plan: Plan<Steps>,
    name: &str,
    text: &str,
) -> Result<Net<Steps>, AllocError>
    ensures { IfOk result (λ net. layout_in net ≡ layout_of plan) }
{
    let text = Value::Text(Text::from_str(alloc, text)?);
    let mut inputs = Inputs::of(alloc, plan)?;
    match inputs.post(name, text) {
        Ok(()) => Ok(inputs.start(alloc)?),
        Err(_) => Err(AllocError),
    }
}

/// The plan of a network that has run, for the next one.
pub(crate) fn plan_of(net: Net<Steps>) -> Plan<Steps>
    ensures { layout_of result ≡ layout_in net }
{
    let NetParts { plan, .. } = net.into_parts();
    plan
}
