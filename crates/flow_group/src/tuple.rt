//! Joins: rows of one message from each port.
ghost use Rattle.std.specs.Prelude.{◌≡◌, true, OnOk, OnErr, IfOk, map};
ghost use Rattle.std.specs.List.{list_any};
ghost use Rattle.flow_group.specs.Tuple.{has_tuple, has_first, first_at, tuple_of, takes_tuple, is_join_complete};
ghost use Rattle.flow_group.specs.Tuple.{has_run_dry, all_ended};

use flow_intake::Intake;
use flow_value::{Row, Value};
use std::alloc::{AllocError, Global};

/// Whether a message waits at each of these ports.
pub fn has_tuple(ports: &[Intake]) -> bool
    ensures { result ≡ has_tuple ports.now }
{
    ports.iter().all(|port| !port.waiting().is_empty())
}

/// Whether a join with these ports is complete: all of them are completed, or a completed one holds nothing, so that
/// what comes in elsewhere finds no partner any more.
pub fn is_join_complete(ports: &[Intake]) -> bool
    ensures { result ≡ is_join_complete ports.now }
{
    all_ended(ports) || has_run_dry(ports)
}

/// Whether one of these ports is completed and holds nothing.
fn has_run_dry(ports: &[Intake]) -> bool
    ensures { result ≡ list_any has_run_dry ports.now }
{
    ports
        .iter()
        .any(|port| port.has_ended() && port.waiting().is_empty())
}

/// Whether each of these ports is completed: then a batched join is complete.
pub fn all_ended(ports: &[Intake]) -> bool
    ensures { result ≡ all_ended ports.now }
{
    ports.iter().all(|port| port.has_ended())
}

/// A row with a copy of the message that waits longest at each port, in the order of the ports. The messages stay, so
/// that nothing is lost where the row is not taken.
pub fn copy_tuple(alloc: Global, ports: &[Intake]) -> Result<Value, AllocError>
    requires { has_tuple ports.now ≡ true }
    ensures { IfOk result (λ row. row ≡ tuple_of ports.now) }
{
    let firsts = copy_firsts(alloc, ports)?;
    match Row::new(alloc, firsts) {
        Ok(row) => Ok(Value::Row(row)),
        Err(_) => Err(AllocError),
    }
}

/// A copy of the message that waits longest at each port.
fn copy_firsts(alloc: Global, ports: &[Intake]) -> Result<Vec<Value>, AllocError>
    requires { has_tuple ports.now ≡ true }
    ensures { IfOk result (λ firsts. firsts.items ≡ map first_at ports.now) }
{
    let mut firsts = Vec::with_capacity(alloc, ports.len())?;
    for port in ports {
        firsts.push(port.waiting()[0].copy(alloc)?)?;
    }
    Ok(firsts)
}

/// Takes the message that waits longest off each port.
pub fn take_tuple(ports: &mut [Intake])
    requires { has_tuple ports.old ≡ true }
    ensures { ports.new ≡ takes_tuple ports.old }
{
    for place in 0..ports.len() {
        ports[place].drop_next();
    }
}

/// Makes a row of the message that waits longest at each port, and takes these messages off their ports; where there is
/// no memory for the row, nothing has changed.
pub fn make_tuple(alloc: Global, ports: &mut [Intake]) -> Result<Value, AllocError>
    requires { has_tuple ports.old ≡ true }
    ensures made { IfOk result (λ row. row ≡ tuple_of ports.old) }
    ensures taken { OnOk result (ports.new ≡ takes_tuple ports.old) }
    ensures kept { OnErr result (ports.new ≡ ports.old) }
{
    let row = copy_tuple(alloc, ports)?;
    take_tuple(ports);
    Ok(row)
}
