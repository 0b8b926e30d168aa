//! Batched joins: rows of the messages that came in first over all ports, a row of as many rows as there are ports.
ghost use Rattle.std.specs.Prelude.{◌≡◌, take, OnOk, OnErr, IfOk};
ghost use Rattle.flow_group.specs.Group.{has_group, row_of, rows_from, group_of, takes_first, takes_group, drops_group};
ghost use Rattle.flow_group.specs.Tuple.{all_ended};

use crate::arrivals::Arrivals;
use crate::tuple::all_ended;
use flow_intake::Intake;
use flow_value::{Row, Value};
use std::alloc::{AllocError, Global};
use std::collections::VecDeque;

/// Whether a batched join has a next group: as many messages as a group has, or the rest where all ports are completed.
pub fn has_group(arrivals: &Arrivals, ports: &[Intake], size: u32) -> bool
    ensures { result ≡ has_group size (all_ended ports.now) arrivals.now.ports }
{
    !arrivals.is_empty() && (size as usize <= arrivals.len() || all_ended(ports))
}

/// The next group: a row that has for each port a row with copies of its messages, in order. The messages stay, so that
/// nothing is lost where the row is not taken.
pub fn copy_group(
    alloc: Global,
    arrivals: &Arrivals,
    ports: &[Intake],
    size: u32,
) -> Result<Value, AllocError>
    ensures { IfOk result (λ row. row ≡ group_of size arrivals.now.ports ports.now) }
{
    let rows = copy_rows(alloc, arrivals, ports, size)?;
    row_of(alloc, rows)
}

/// The rows of the next group, in the order of the ports.
fn copy_rows(
    alloc: Global,
    arrivals: &Arrivals,
    ports: &[Intake],
    size: u32,
) -> Result<Vec<Value>, AllocError>
    ensures { IfOk result (λ rows. rows.items ≡ rows_from 0 (take size arrivals.now.ports) ports.now) }
{
    let mut rows = Vec::with_capacity(alloc, ports.len())?;
    for place in 0..ports.len() {
        let count = arrivals.came_at(place, size);
        rows.push(copy_first(alloc, ports[place].waiting(), count)?)?;
    }
    Ok(rows)
}

/// A row with copies of so many messages that wait longest at a port, or of all where there are fewer.
#[tactic(auto, using(crate::proofs::GroupsTaken::take_least))]
fn copy_first(alloc: Global, waiting: &VecDeque<Value>, count: usize) -> Result<Value, AllocError>
    ensures { IfOk result (λ row. row ≡ row_of (take count waiting.now.items)) }
{
    let count = count.min(waiting.len());
    let mut values = Vec::with_capacity(alloc, count)?;
    for place in 0..count {
        values.push(waiting[place].copy(alloc)?)?;
    }
    row_of(alloc, values)
}

/// The row of these values.
fn row_of(alloc: Global, values: Vec<Value>) -> Result<Value, AllocError>
    ensures { IfOk result (λ row. row ≡ row_of values.items) }
{
    match Row::new(alloc, values) {
        Ok(row) => Ok(Value::Row(row)),
        Err(_) => Err(AllocError),
    }
}

/// Takes the messages of the next group off their ports.
pub fn take_group(arrivals: &mut Arrivals, ports: &mut [Intake], size: u32)
    ensures taken { ports.new ≡ takes_group size arrivals.old.ports ports.old }
    ensures dropped { arrivals.new ≡ drops_group size arrivals.old }
{
    take_first_of_all(arrivals, ports, size);
    arrivals.drop_group(size);
}

/// Takes off each port as many messages as the next group has from there.
fn take_first_of_all(arrivals: &Arrivals, ports: &mut [Intake], size: u32)
    ensures { ports.new ≡ takes_group size arrivals.now.ports ports.old }
{
    for place in 0..ports.len() {
        let count = arrivals.came_at(place, size);
        take_first(&mut ports[place], count);
    }
}

/// Takes so many messages that wait longest off a port, or all where there are fewer.
#[tactic(auto, using(crate::proofs::GroupsTaken::drop_least, crate::proofs::GroupsTaken::drop_next))]
fn take_first(port: &mut Intake, count: usize)
    ensures { port.new ≡ takes_first count port.old }
{
    for _taken in 0..count.min(port.waiting().len()) {
        port.drop_next();
    }
}

/// Makes the row of the next group, and takes its messages off their ports; where there is no memory for the row, nothing
/// has changed.
pub fn make_group(
    alloc: Global,
    arrivals: &mut Arrivals,
    ports: &mut [Intake],
    size: u32,
) -> Result<Value, AllocError>
    ensures made { IfOk result (λ row. row ≡ group_of size arrivals.old.ports ports.old) }
    ensures taken { OnOk result (ports.new ≡ takes_group size arrivals.old.ports ports.old) }
    ensures dropped { OnOk result (arrivals.new ≡ drops_group size arrivals.old) }
    ensures kept { OnErr result (ports.new ≡ ports.old) }
    ensures order_kept { OnErr result (arrivals.new ≡ arrivals.old) }
{
    let row = copy_group(alloc, arrivals, ports, size)?;
    take_group(arrivals, ports, size);
    Ok(row)
}
