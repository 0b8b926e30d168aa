//! The targets' ends of the links of a network, dealt out to the ports of its blocks and to its exits, and taken back.
ghost use Rattle.std.specs.Prelude.{◌≡◌, ℕ, ◌<◌, ◌≤◌, ◌+◌, [], length, map, vec_capacity};
ghost use Rattle.flow_link.specs.Lists.{below};
ghost use Rattle.flow_link.specs.Planned.{layout_of};
ghost use Rattle.flow_block.specs.Planned.{links_out, links_to};
ghost use Rattle.flow_task.specs.Dealt.{HasRooms, HasRoomsIn, exits_dealt, ins_dealt};
ghost use Rattle.flow_task.specs.Known.{InKnown, in_known};

use crate::sources::take_last;
use flow_link::{LinkId, LinkTarget, Plan};
use flow_wire::TargetEnd;

/// Ends of links into the ports of the blocks of a network, and to its exits, both in the order of the links.
#[derive(Drop)]
pub(crate) struct Targets {
    pub(crate) ins: Vec<Vec<Vec<TargetEnd>>>,
    pub(crate) exits: Vec<TargetEnd>,
}

impl Targets {
    /// Deals out all ends, which stand in the order of the links.
    pub(crate) fn deal<W>(&mut self, plan: &Plan<W>, ends: Vec<TargetEnd>)
        ghost say: { ℕ → InKnown }
        requires known { map in_known ends.items ≡ map say (below (length (layout_of plan.now).links)) }
        requires ins { map (λ ports. map (λ row. map in_known row.items) ports.items) self.old.ins.items ≡
            ins_dealt (layout_of plan.now) say 0 }
        requires exits { map in_known self.old.exits.items ≡ [] }
        requires rooms { HasRoomsIn (λ ports. ports.items) vec_capacity (λ b p. length (links_to (layout_of plan.now) b p))
            self.old.ins.items }
        requires room { length (links_out (layout_of plan.now)) ≤ vec_capacity self.old.exits }
        ensures ins { map (λ ports. map (λ row. map in_known row.items) ports.items) self.new.ins.items ≡
            ins_dealt (layout_of plan.now) say (length (layout_of plan.now).links) }
        ensures exits { map in_known self.new.exits.items ≡
            exits_dealt (layout_of plan.now) say (length (layout_of plan.now).links) }
    {
        let mut id = 0;
        for end in ends {
            self.put(plan, id, end);
            id += 1;
        }
    }

    /// The end of the next link goes to where it belongs, for which there is room.
    fn put<W>(&mut self, plan: &Plan<W>, id: LinkId, end: TargetEnd)
        ghost say: { ℕ → InKnown }
        requires there { id < length (layout_of plan.now).links }
        requires known { in_known end ≡ say id }
        requires ins { map (λ ports. map (λ row. map in_known row.items) ports.items) self.old.ins.items ≡
            ins_dealt (layout_of plan.now) say id }
        requires exits { map in_known self.old.exits.items ≡ exits_dealt (layout_of plan.now) say id }
        requires rooms { HasRoomsIn (λ ports. ports.items) vec_capacity (λ b p. length (links_to (layout_of plan.now) b p))
            self.old.ins.items }
        requires room { length (links_out (layout_of plan.now)) ≤ vec_capacity self.old.exits }
        ensures ins { map (λ ports. map (λ row. map in_known row.items) ports.items) self.new.ins.items ≡
            ins_dealt (layout_of plan.now) say (id + 1) }
        ensures exits { map in_known self.new.exits.items ≡ exits_dealt (layout_of plan.now) say (id + 1) }
        ensures rooms { HasRoomsIn (λ ports. ports.items) vec_capacity (λ b p. length (links_to (layout_of plan.now) b p))
            self.new.ins.items }
        ensures room { length (links_out (layout_of plan.now)) ≤ vec_capacity self.new.exits }
    {
        match plan.link(id).target {
            LinkTarget::Port(block, port) => self.ins[block][port as usize].push_reserved(end),
            LinkTarget::Exit => self.exits.push_reserved(end),
        }
    }

    /// The end of the last link comes back.
    pub(crate) fn take<W>(&mut self, plan: &Plan<W>, id: LinkId) -> TargetEnd
        ghost say: { ℕ → InKnown }
        requires there { id < length (layout_of plan.now).links }
        requires ins { map (λ ports. map (λ row. map in_known row.items) ports.items) self.old.ins.items ≡
            ins_dealt (layout_of plan.now) say (id + 1) }
        requires exits { map in_known self.old.exits.items ≡ exits_dealt (layout_of plan.now) say (id + 1) }
        ensures known { in_known result ≡ say id }
        ensures ins { map (λ ports. map (λ row. map in_known row.items) ports.items) self.new.ins.items ≡
            ins_dealt (layout_of plan.now) say id }
        ensures exits { map in_known self.new.exits.items ≡ exits_dealt (layout_of plan.now) say id }
    {
        match plan.link(id).target {
            LinkTarget::Port(block, port) => take_last(&mut self.ins[block][port as usize]),
            LinkTarget::Exit => take_last(&mut self.exits),
        }
    }
}
