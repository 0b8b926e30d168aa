//! The sources' ends of the links of a network, dealt out to its blocks and inputs, and taken back.
ghost use Rattle.std.specs.Prelude.{◌≡◌, ℕ, ◌<◌, ◌≤◌, ◌+◌, ◌++◌, ◌∷◌, [], length, map, vec_capacity, IfOk};
ghost use Rattle.flow_link.specs.Lists.{below};
ghost use Rattle.flow_link.specs.Planned.{layout_of};
ghost use Rattle.flow_block.specs.Planned.{links_from};
ghost use Rattle.flow_task.specs.Dealt.{HasRooms, inputs_dealt, outs_dealt};
ghost use Rattle.flow_task.specs.Inputs.{links_of_inputs};
ghost use Rattle.flow_task.specs.Known.{OutKnown, out_known};

use flow_link::{LinkId, LinkSource, Plan};
use flow_wire::SourceEnd;

/// Ends of links out of the blocks of a network, and out of its inputs, both in the order of the links.
#[derive(Drop)]
pub(crate) struct Sources {
    pub(crate) outs: Vec<Vec<SourceEnd>>,
    pub(crate) inputs: Vec<SourceEnd>,
}

impl Sources {
    /// Deals out all ends, which stand in the order of the links.
    pub(crate) fn deal<W>(&mut self, plan: &Plan<W>, ends: Vec<SourceEnd>)
        ghost say: { ℕ → OutKnown }
        requires known { map out_known ends.items ≡ map say (below (length (layout_of plan.now).links)) }
        requires outs { map (λ row. map out_known row.items) self.old.outs.items ≡ outs_dealt (layout_of plan.now) say 0 }
        requires inputs { map out_known self.old.inputs.items ≡ [] }
        requires rooms { HasRooms vec_capacity (λ b. length (links_from (layout_of plan.now) b)) self.old.outs.items }
        requires room { length (links_of_inputs (layout_of plan.now)) ≤ vec_capacity self.old.inputs }
        ensures outs { map (λ row. map out_known row.items) self.new.outs.items ≡
            outs_dealt (layout_of plan.now) say (length (layout_of plan.now).links) }
        ensures inputs { map out_known self.new.inputs.items ≡
            inputs_dealt (layout_of plan.now) say (length (layout_of plan.now).links) }
    {
        let mut id = 0;
        for end in ends {
            self.put(plan, id, end);
            id += 1;
        }
    }

    /// The end of the next link goes to where it belongs, for which there is room.
    fn put<W>(&mut self, plan: &Plan<W>, id: LinkId, end: SourceEnd)
        ghost say: { ℕ → OutKnown }
        requires there { id < length (layout_of plan.now).links }
        requires known { out_known end ≡ say id }
        requires outs { map (λ row. map out_known row.items) self.old.outs.items ≡ outs_dealt (layout_of plan.now) say id }
        requires inputs { map out_known self.old.inputs.items ≡ inputs_dealt (layout_of plan.now) say id }
        requires rooms { HasRooms vec_capacity (λ b. length (links_from (layout_of plan.now) b)) self.old.outs.items }
        requires room { length (links_of_inputs (layout_of plan.now)) ≤ vec_capacity self.old.inputs }
        ensures outs { map (λ row. map out_known row.items) self.new.outs.items ≡ outs_dealt (layout_of plan.now) say (id + 1) }
        ensures inputs { map out_known self.new.inputs.items ≡ inputs_dealt (layout_of plan.now) say (id + 1) }
        ensures rooms { HasRooms vec_capacity (λ b. length (links_from (layout_of plan.now) b)) self.new.outs.items }
        ensures room { length (links_of_inputs (layout_of plan.now)) ≤ vec_capacity self.new.inputs }
    {
        match plan.link(id).source {
            LinkSource::Block(block) => self.outs[block].push_reserved(end),
            LinkSource::Input(_) => self.inputs.push_reserved(end),
        }
    }

    /// The end of the last link comes back.
    pub(crate) fn take<W>(&mut self, plan: &Plan<W>, id: LinkId) -> SourceEnd
        ghost say: { ℕ → OutKnown }
        requires there { id < length (layout_of plan.now).links }
        requires outs { map (λ row. map out_known row.items) self.old.outs.items ≡ outs_dealt (layout_of plan.now) say (id + 1) }
        requires inputs { map out_known self.old.inputs.items ≡ inputs_dealt (layout_of plan.now) say (id + 1) }
        ensures known { out_known result ≡ say id }
        ensures outs { map (λ row. map out_known row.items) self.new.outs.items ≡ outs_dealt (layout_of plan.now) say id }
        ensures inputs { map out_known self.new.inputs.items ≡ inputs_dealt (layout_of plan.now) say id }
    {
        match plan.link(id).source {
            LinkSource::Block(block) => take_last(&mut self.outs[block]),
            LinkSource::Input(_) => take_last(&mut self.inputs),
        }
    }
}

/// The last of these, of which there is one.
pub(crate) fn take_last<E>(ends: &mut Vec<E>) -> E
    requires { 0 < length ends.old.items }
    ensures { ends.old.items ≡ ends.new.items ++ result ∷ [] }
{
    let Some(end) = ends.pop() else {
        unreachable!()
    };
    end
}
