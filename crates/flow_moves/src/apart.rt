//! A network taken apart.
ghost use Rattle.std.specs.Prelude.{◌≡◌, map, length};
ghost use Rattle.flow_link.specs.Planned.{layout_of};
ghost use Rattle.flow_link.specs.Lists.{below};
ghost use Rattle.flow_block.specs.Routes.{route_of};

use crate::agenda::Agenda;
use flow_block::{Node, Route};
use flow_exit::ExitEnd;
use flow_input::Input;
use flow_link::{LinkState, Plan};

/// All that a network is made of: its blocks and links by their numbers, its inputs in the order of their blocks, and its exits in the
/// order of their links.
#[derive(Drop)]
pub struct NetParts<W> {
    pub plan: Plan<W>,
    pub nodes: Vec<Node>,
    pub inputs: Vec<Input>,
    pub exits: Vec<ExitEnd>,
    pub lines: Vec<LinkState>,
    // What putting it together again would else need memory for.
    pub routes: Vec<Route>,
    pub agenda: Agenda,
    ghost routed: { routes.items ≡ map (route_of (layout_of plan)) (below (length (layout_of plan).links)) },
}
