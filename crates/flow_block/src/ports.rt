//! What becomes of all ports of a block.
ghost use Rattle.std.specs.Prelude.{◌≡◌, ◌<◌, ◌+◌, ◌^◌, ◌↔◌, true, false, [], ◌∷◌, length, cond, map, take, get_or, is_some, Some, pos, Err, OnOk, OnErr, IfOk};
ghost use Rattle.flow_intake.specs.Calls.{takes_next, gives_room, port_closes, port_fails};
ghost use Rattle.flow_outlet.specs.Fits.{weight_of};
ghost use Rattle.flow_outlet.specs.Outlet.{puts, lacks_ids};
ghost use Rattle.flow_outlet.specs.declared.fault.OutletFault.TheVariants.{Ids};
ghost use Rattle.flow_link.specs.Making.{items_of, row_weight};
ghost use Rattle.flow_link.specs.declared.draft.BlockKind.TheVariants.{BatchedJoin};
ghost use Rattle.flow_value.specs.declared.value.Value.TheVariants.{Int};
ghost use Rattle.flow_block.specs.Block.{unit_weight, group_weight, takes_group, is_batched_join, row_count, gives_each, comes_back};
ghost use Rattle.flow_block.specs.BlockFits.{AllGaveOut, weight_out};
ghost use Rattle.flow_block.specs.Copies.{copies_weight};
ghost use Rattle.flow_block.specs.JournalFits.{ports_due};

use crate::copies::copies_weight;
use flow_intake::Intake;
use flow_link::BlockKind;
use flow_outlet::{Outlet, OutletFault};
use flow_spread::Spread;
use flow_value::Value;
use std::alloc::{AllocError, Global};

/// The weight of a result of a message that came through this port.
pub(crate) fn unit_weight(port: &Intake) -> u32
    ensures weight { result ≡ unit_weight port.now.capacity }
    ensures small { cond (is_some port.now.capacity) port.now.load 0 < 2 ^ 32 }
{
    match port.capacity() {
        Some(_) => 1,
        None => 0,
    }
}

/// How many messages may be taken at the ports without more memory.
#[inline]
pub(crate) fn ports_due(ports: &[Intake]) -> usize
    requires { ports_due ports.now < 2 ^ 64 }
    ensures { result ≡ ports_due ports.now }
{
    if ports.len() == 1 {
        return ports[0].owed() + usize::from(ports[0].is_ready());
    }
    let mut total = 0;
    for port in ports {
        total += port.owed() + usize::from(port.is_ready());
    }
    total
}

/// Hands the message that waits longest on to the exits; it stays where they do not take it.
#[inline(always)]
pub(crate) fn hand_first(
    port: &mut Intake,
    exits: &mut Outlet,
    weight: u32,
) -> Result<(), OutletFault>
    requires waits { 0 < length port.old.waiting }
    requires fits { exits.old.room + weight_of exits.old.groups + weight < 2 ^ 32 }
    ensures taken { OnOk result (port.new ≡ takes_next port.old) }
    ensures there { OnOk result (exits.new ≡ puts (take 1 port.old.waiting) weight exits.old) }
    ensures stays { OnErr result (port.new ≡ port.old) }
    ensures kept { OnErr result (exits.new ≡ exits.old) }
    ensures ids { (result ≡ Err Ids) ↔ (lacks_ids (take 1 port.old.waiting) exits.old ≡ true) }
{
    let value = port.swap_first(Value::Int(0));
    match exits.put_one(value, weight) {
        Ok(()) => {
            port.drop_next();
            Ok(())
        }
        Err((value, fault)) => {
            let _zero = port.swap_first(value);
            Err(fault)
        }
    }
}

/// How many of the messages that wait at a port make a row of this size, or the rest of one.
fn group_count(port: &Intake, size: u32) -> usize
    ensures { result ≡ length (take size port.now.waiting) }
{
    port.waiting().len().min(size as usize)
}

/// The weight of a row of the messages that wait longest at this port.
pub(crate) fn group_weight(port: &Intake, size: u32) -> u32
    ensures weight { result ≡ group_weight port.now.capacity (length (take size port.now.waiting)) }
    ensures small { cond (is_some port.now.capacity) port.now.load 0 < 2 ^ 32 }
{
    match port.capacity() {
        Some(_) => group_count(port, size) as u32,
        None => 0,
    }
}

/// Copies of the messages that wait longest at a port: as many as a row of this size has, or all where there are fewer.
/// The messages stay, so that nothing is lost where the row is not taken.
#[tactic(auto, using(crate::proofs::GroupsTaken::take_count))]
pub(crate) fn copy_group(alloc: Global, port: &Intake, size: u32) -> Result<Vec<Value>, AllocError>
    ensures { IfOk result (λ values. values.items ≡ take size port.now.waiting) }
{
    let waiting = port.waiting();
    let count = group_count(port, size);
    let mut values = Vec::with_capacity(alloc, count)?;
    for place in 0..count {
        values.push(waiting[place].copy(alloc)?)?;
    }
    Ok(values)
}

/// Puts a row of the messages that wait longest to the exits, with this weight, and takes these messages off; they stay
/// where the exits do not take it.
pub(crate) fn put_group(
    port: &mut Intake,
    exits: &mut Outlet,
    row: Value,
    size: u32,
    weight: u32,
) -> Result<(), OutletFault>
    requires fits { exits.old.room + weight_of exits.old.groups + weight < 2 ^ 32 }
    ensures taken { OnOk result (port.new ≡ takes_group size port.old) }
    ensures there { OnOk result (exits.new ≡ puts (row ∷ []) weight exits.old) }
    ensures stays { OnErr result (port.new ≡ port.old) }
    ensures kept { OnErr result (exits.new ≡ exits.old) }
    ensures ids { result ≡ Err Ids → lacks_ids (row ∷ []) exits.old ≡ true }
{
    match exits.put_one(row, weight) {
        Ok(()) => {
            drop_group(port, size);
            Ok(())
        }
        Err((_, fault)) => Err(fault),
    }
}

/// Takes the messages that wait longest off a port: as many as a row of this size has, or all where there are fewer.
#[tactic(auto, using(crate::proofs::GroupsTaken::drop_next, crate::proofs::GroupsTaken::drop_count))]
fn drop_group(port: &mut Intake, size: u32)
    ensures { port.new ≡ takes_group size port.old }
{
    for _taken in 0..group_count(port, size) {
        port.drop_next();
    }
}

/// So much room comes back at each port.
pub(crate) fn give_room(ports: &mut Vec<Intake>, room: u32)
    requires { AllGaveOut room ports.old.items }
    ensures { ports.new.items ≡ map (gives_room room) ports.old.items }
{
    if room == 0 {
        return;
    }
    for place in 0..ports.len() {
        ports[place].give_room(room as usize);
    }
}

/// How many messages of a group came in at a port: none, where what was given is no group.
fn row_count(group: &Value, port: usize) -> usize
    ensures { result ≡ row_weight (get_or (items_of group.now) port (Int (pos 0))) }
{
    match group {
        Value::Row(rows) if port < rows.items().len() => message_count(&rows.items()[port]),
        Value::Row(_) | Value::Int(_) | Value::Text(_) => 0,
    }
}

/// How many values a row has.
fn message_count(row: &Value) -> usize
    ensures { result ≡ row_weight row.now }
{
    match row {
        Value::Row(values) => values.items().len(),
        Value::Int(_) | Value::Text(_) => 0,
    }
}

/// So much room comes back at each port, and that of the messages of a group which came in there, but no more than the port
/// has out besides this weight.
#[inline(never)]
fn give_rows(ports: &mut Vec<Intake>, room: u32, weight: u64, group: &Value)
    requires { AllGaveOut (room + weight) ports.old.items }
    ensures { ports.new.items ≡ gives_each room weight (row_count BatchedJoin (Some group.now)) 0 ports.old.items }
{
    for place in 0..ports.len() {
        let port = &mut ports[place];
        let out = (port.room_out() as u64)
            .saturating_sub(room as u64)
            .saturating_sub(weight);
        let count = row_count(group, place).min(out as usize);
        port.give_room(room as usize + count);
    }
}

/// The room comes back to the ports that comes with a head which was given.
#[inline(always)]
pub(crate) fn bring_back(
    ports: &mut Vec<Intake>,
    exits: &mut Outlet,
    copies: &Spread,
    kind: BlockKind,
    head: &Value,
)
    requires { AllGaveOut (weight_out exits.old (copies_weight copies.now)) ports.old.items }
    ensures told { exits.new ≡ record exits.old { room = 0 } }
    ensures back { ports.new.items ≡ comes_back exits.old copies.now kind (Some head.now) ports.old.items }
{
    let room = exits.room_back();
    if kind.unit().makes_groups() {
        let weight = exits.weight() as u64 + copies_weight(copies) as u64;
        give_rows(ports, room, weight, head);
    } else {
        give_room(ports, room);
    }
}

/// Each port takes no message any more.
pub(crate) fn close_ports(ports: &mut Vec<Intake>)
    ensures { ports.new.items ≡ map port_closes ports.old.items }
{
    for place in 0..ports.len() {
        ports[place].close_port();
    }
}

/// Each port takes no message any more, since the block's own fault stands.
pub(crate) fn fail_ports(ports: &mut Vec<Intake>)
    ensures { ports.new.items ≡ map port_fails ports.old.items }
{
    for place in 0..ports.len() {
        ports[place].fail_port();
    }
}
