//! Makes a network in which nothing has happened. All memory is taken first, so that what came in goes back where there
//! is none.
ghost use Rattle.std.specs.Prelude.{◌≡◌, ◌+◌, ◌≤◌, true, length, map, count_by, replicate, IfOk, IfErr, []};
ghost use Rattle.std.specs.Prelude.{vec_capacity, vec_len};
ghost use Rattle.flow_link.specs.Lists.{below, every};
ghost use Rattle.flow_link.specs.Planned.{layout_of};
ghost use Rattle.flow_input.specs.Input.{fresh_input};
ghost use Rattle.flow_block.specs.Planned.{fresh_node, links_out};
ghost use Rattle.flow_block.specs.Routes.{route_of};
ghost use Rattle.flow_exit.specs.Exit.{fresh_exit};
ghost use Rattle.flow_core.specs.State.{fresh_line, fresh_net};
ghost use Rattle.flow_link.specs.Posted.{input_of, ends_by_number};

use crate::engine::Engine;
use crate::net::Net;
use crate::order::hides_turns;
use flow_block::{Node, Route, routes_of};
use flow_exit::ExitEnd;
use flow_input::Input;
use flow_link::{LinkState, Plan, Posted};
use flow_moves::{Agenda, Parts, exits_of, lines_of, nodes_of};
use flow_value::Runs;
use std::alloc::{AllocError, Global};

/// All of a network but what is posted to it, with room for that.
#[derive(Drop)]
struct Frame {
    nodes: Vec<Node>,
    inputs: Vec<Input>,
    exits: Vec<ExitEnd>,
    lines: Vec<LinkState>,
    routes: Vec<Route>,
    agenda: Agenda,
}

impl<W: Runs> Net<W> {
    ghost use Rattle.flow_net.specs.Net.{layout_in, parts_of, run_of};

    /// A network in which nothing has happened, with these posted values and endings: one list for each block that is
    /// an input, in the order of the blocks. No list ends by fault 0, which is none (`are_numbered`). Where memory is out,
    /// both come back.
    pub fn new(
        alloc: Global,
        plan: Plan<W>,
        posted: Vec<Posted>,
    ) -> Result<Net<W>, (Plan<W>, Vec<Posted>)>
        requires one_each { length posted.items ≡ count_by (λ block. block.input) (layout_of plan).blocks }
        requires numbered { every ends_by_number (map input_of posted.items) ≡ true }
        ensures planned { IfOk result (λ net. layout_in net ≡ layout_of plan) }
        ensures made { IfOk result (λ net. (run_of W.meaning net).trace.inputs ≡ map input_of posted.items) }
        ensures fresh { IfOk result (λ net. parts_of net ≡ fresh_net (layout_in net) (map input_of posted.items)) }
        ensures plan_back { IfErr result (λ back. back.0 ≡ plan) }
        ensures posted_back { IfErr result (λ back. back.1 ≡ posted) }
    {
        match fresh_frame(alloc, &plan, posted.len()) {
            Ok(frame) => {
                let inputs = fill_inputs(posted, frame.inputs);
                let parts = Parts::new(frame.nodes, inputs, frame.exits, frame.lines);
                Ok(Net {
                    engine: Engine {
                        plan,
                        parts,
                        routes: frame.routes,
                        agenda: frame.agenda,
                    },
                })
            }
            Err(_) => Err((plan, posted)),
        }
    }
}

/// Whatever a network of this plan with so many inputs needs memory for.
fn fresh_frame<W>(alloc: Global, plan: &Plan<W>, inputs: usize) -> Result<Frame, AllocError>
    ensures nodes { IfOk result (λ frame. frame.nodes.items ≡ map (fresh_node (layout_of plan.now)) (below (length
        (layout_of plan.now).blocks))) }
    ensures exits { IfOk result (λ frame. frame.exits.items ≡ map (λ _. fresh_exit) (links_out (layout_of plan.now))) }
    ensures lines { IfOk result (λ frame. frame.lines.items ≡ replicate (length (layout_of plan.now).links)
        fresh_line) }
    ensures routes { IfOk result (λ frame. frame.routes.items ≡ map (route_of (layout_of plan.now)) (below (length
        (layout_of plan.now).links))) }
    ensures no_inputs { IfOk result (λ frame. frame.inputs.items ≡ []) }
    ensures room { IfOk result (λ frame. inputs ≤ vec_capacity frame.inputs) }
{
    let hides_turns = hides_turns(alloc, plan)?;
    let inputs = Vec::with_capacity(alloc, inputs)?;
    let nodes = nodes_of(alloc, plan)?;
    let exits = exits_of(alloc, plan)?;
    let lines = lines_of(alloc, plan.link_count() as usize)?;
    let routes = routes_of(alloc, plan)?;
    let agenda = Agenda::new(alloc, plan.link_count(), plan.block_count(), hides_turns)?;
    Ok(Frame {
        nodes,
        inputs,
        exits,
        lines,
        routes,
        agenda,
    })
}

/// Each input's posted values, none of them given, in this list, which has room for all.
fn fill_inputs(posted: Vec<Posted>, mut inputs: Vec<Input>) -> Vec<Input>
    requires none { inputs.items ≡ [] }
    requires room { length posted.items ≤ vec_capacity inputs }
    ensures { result.items ≡ map fresh_input (map input_of posted.items) }
{
    for input in posted {
        inputs.push_reserved(Input::new(input.values, input.ending));
    }
    inputs
}
