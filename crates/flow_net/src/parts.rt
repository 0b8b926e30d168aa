//! A network taken apart, and put together again.
ghost use Rattle.std.specs.Prelude.{◌≡◌, ◌<◌, true, length};
ghost use Rattle.flow_net.specs.Asked.{none_asked};
ghost use Rattle.flow_link.specs.Planned.{layout_of};
ghost use Rattle.flow_core.specs.InOrder.{NetInOrder, all_looked, journals_of, looked_at};
ghost use Rattle.flow_exec.specs.Works.{works_of};
ghost use Rattle.flow_net.specs.Engine.{InOrder};

use crate::engine::Engine;
use crate::net::Net;
use flow_link::LinkId;
use flow_moves::{NetParts, Parts};
use flow_value::Runs;

impl<W: Runs> Net<W> {
    ghost use Rattle.flow_lawful.specs.Lawful.{Lawful};
    ghost use Rattle.flow_core.specs.Inputs.{InputsStay};
    ghost use Rattle.flow_moves.specs.Apart.{apart_in, apart_layout};
    ghost use Rattle.flow_net.specs.Net.{layout_in, parts_of, run_of};

    /// The parts of the network.
    pub fn into_parts(self) -> NetParts<W>
        ensures same_layout { apart_layout result ≡ layout_in self }
        ensures same_parts { apart_in result ≡ parts_of self }
        ensures unasked { none_asked (apart_in result) ≡ true }
    {
        let Net { engine } = self;
        let Engine {
            plan,
            parts,
            routes,
            agenda,
            ..
        } = engine;
        let (nodes, inputs, exits, lines) = parts.into_lists();
        NetParts {
            plan,
            nodes,
            inputs,
            exits,
            lines,
            routes,
            agenda,
        }
    }

    /// The network of these parts, whose ends may have looked at their links at any time: all of them look now. It takes no
    /// memory, and no mark is written.
    pub fn join(apart: NetParts<W>) -> Net<W>
        requires in_order { ∥ NetInOrder (apart_layout apart) (works_of W.meaning (apart_layout apart)) (apart_in apart) ∥₁ }
        requires unasked { none_asked (apart_in apart) ≡ true }
        ensures same_layout { layout_in result ≡ apart_layout apart }
        ensures looked { parts_of result ≡ all_looked (apart_layout apart) (works_of W.meaning (apart_layout apart))
            (length (apart_layout apart).links) (apart_in apart) }
        ensures inputs_stay { InputsStay (apart_in apart) (parts_of result) }
        ensures journals { journals_of (parts_of result) ≡ journals_of (apart_in apart) }
        ensures lawful { Lawful (run_of W.meaning result) }
    {
        let NetParts {
            plan,
            nodes,
            inputs,
            exits,
            lines,
            routes,
            agenda,
        } = apart;
        let parts = Parts::new(nodes, inputs, exits, lines);
        let mut engine = Engine {
            plan,
            parts,
            routes,
            agenda,
        };
        engine.look_all();
        Net { engine }
    }
}

impl<W: Runs> Engine<W> {
    /// The ends of all links look.
    fn look_all(&mut self)
        requires { ∥ NetInOrder (layout_of self.old.plan) (works_of W.meaning (layout_of self.old.plan)) self.old.parts ∥₁ }
        ensures same_plan { self.new.plan ≡ self.old.plan }
        ensures looked { self.new.parts ≡ all_looked (layout_of self.old.plan) (works_of W.meaning (layout_of self.old.plan))
            (length (layout_of self.old.plan).links) self.old.parts }
        ensures kept { InOrder W.meaning self.new }
    {
        for id in 0..self.plan.link_count() {
            self.look_at(id);
        }
    }

    /// The ends of a link look.
    fn look_at(&mut self, id: LinkId)
        requires in_order { ∥ NetInOrder (layout_of self.old.plan) (works_of W.meaning (layout_of self.old.plan)) self.old.parts ∥₁ }
        requires there { id < length (layout_of self.old.plan).links }
        ensures same_plan { self.new.plan ≡ self.old.plan }
        ensures looked { self.new.parts ≡ looked_at (layout_of self.old.plan) (works_of W.meaning (layout_of self.old.plan)) id
            self.old.parts }
    {
        let Engine { parts, routes, .. } = self;
        parts.look_along(id, &routes[id as usize]);
    }
}
