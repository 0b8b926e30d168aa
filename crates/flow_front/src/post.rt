//! Posts values to inputs by their names, and starts the network.
ghost use Rattle.std.specs.Prelude.{◌≡◌, ◌<◌, ◌↔◌, true, false, length, map, count_by, replicate, IfOk, IfErr, OnOk, OnErr, IfSome, Err, None};
ghost use Rattle.flow_link.specs.Planned.{layout_of};
ghost use Rattle.flow_link.specs.Posted.{input_of, is_numbered_ending};
ghost use Rattle.flow_front.specs.Inputs.{nothing_posted, with_value};
ghost use Rattle.flow_front.specs.Named.{input_named, inputs_before};
ghost use Rattle.flow_front.specs.declared.refused.EndRefused.TheVariants as end_refused;
ghost use Rattle.flow_front.specs.declared.refused.PostRefused.TheVariants as refused;

use crate::inputs::Inputs;
use crate::refused::{EndRefused, PostRefused};
use flow_link::{Ending, Plan};
use flow_net::{Net, Posted};
use flow_value::{Runs, Value};
use std::alloc::{AllocError, AllocFailed, Global};

impl<W: Drop> Inputs<W> {
    ghost use Rattle.flow_front.specs.Inputs.{layout_in, posted_in, changed_at, with_ending, value_in};

    /// The inputs of this plan. Nothing is posted to them, and each is complete.
    pub fn of(alloc: Global, plan: Plan<W>) -> Result<Inputs<W>, AllocFailed<Plan<W>>>
        ensures same_plan { IfOk result (λ inputs. layout_in inputs ≡ layout_of plan) }
        ensures nothing { IfOk result (λ inputs. posted_in inputs ≡ replicate
            (count_by (λ block. block.input) (layout_of plan).blocks) nothing_posted) }
        ensures back { IfErr result (λ failed. failed.value ≡ plan) }
    {
        match empty_lists(alloc, plan.input_count()) {
            Ok(lists) => Ok(Inputs { plan, lists }),
            Err(_) => Err(AllocFailed { value: plan }),
        }
    }

    /// Posts this value to the input with this name, behind those that were posted before. After a refusal all is as it
    /// was, and the error holds the value.
    ///
    /// Microsoft: `Post`.
    pub fn post(&mut self, name: &str, value: Value) -> Result<(), PostRefused>
        ensures same_plan { layout_in self.new ≡ layout_in self.old }
        ensures posted { OnOk result (IfSome (input_named (layout_in self.old) name.now) (λ place.
            posted_in self.new ≡ changed_at place (with_value value) (posted_in self.old))) }
        ensures no_input { (result ≡ Err (refused.NoInput value)) ↔ (input_named (layout_in self.old) name.now ≡ None) }
        ensures kept { OnErr result (posted_in self.new ≡ posted_in self.old) }
        ensures back { IfErr result (λ why. value_in why ≡ value) }
    {
        match self.place(name) {
            Some(place) => push_onto(&mut self.lists[place], value),
            None => Err(PostRefused::NoInput(value)),
        }
    }

    /// Says how the values of the input with this name end, in place of what was said before. Fault 0 is none, and is refused.
    /// After a refusal all is as it was.
    ///
    /// Microsoft: `Complete` and `Fault` of a block.
    pub fn end(&mut self, name: &str, ending: Ending) -> Result<(), EndRefused>
        ensures same_plan { layout_in self.new ≡ layout_in self.old }
        ensures ended { OnOk result (IfSome (input_named (layout_in self.old) name.now) (λ place.
            posted_in self.new ≡ changed_at place (with_ending ending) (posted_in self.old))) }
        ensures no_input { (result ≡ Err end_refused.NoInput) ↔ (input_named (layout_in self.old) name.now ≡ None) }
        ensures numbered { OnOk result (is_numbered_ending ending ≡ true) }
        ensures zero { result ≡ Err end_refused.FaultZero → is_numbered_ending ending ≡ false }
        ensures kept { OnErr result (posted_in self.new ≡ posted_in self.old) }
    {
        match self.place(name) {
            Some(place) => {
                if !ending.is_numbered() {
                    return Err(EndRefused::FaultZero);
                }
                self.lists[place].ending = ending;
                Ok(())
            }
            None => Err(EndRefused::NoInput),
        }
    }

    /// The plan whose inputs these are.
    pub fn plan(&self) -> &Plan<W>
        ensures { layout_of result.now ≡ layout_in self.now }
    {
        &self.plan
    }

    /// The place of the input with this name among the inputs.
    fn place(&self, name: &str) -> Option<usize>
        ensures place { result ≡ input_named (layout_in self.now) name.now }
        ensures within { IfSome result (λ place. place < length self.now.lists.items) }
    {
        let number = self.plan.find(name)?;
        if self.plan.block(number).input {
            Some(self.inputs_before(number))
        } else {
            None
        }
    }

    /// How many inputs come before the block with this number.
    fn inputs_before(&self, block: usize) -> usize
        requires { block < length (layout_in self.now).blocks }
        ensures { result ≡ inputs_before (layout_in self.now) block }
    {
        let mut count = 0;
        for number in 0..block {
            if self.plan.block(number).input {
                count += 1;
            }
        }
        count
    }
}

impl<W: Runs> Inputs<W> {
    ghost use Rattle.flow_net.specs.Net.{run_of};
    ghost use Rattle.flow_net.specs.Net as net;
    ghost use Rattle.flow_core.specs.State.{fresh_net};
    ghost use Rattle.flow_front.specs.Inputs.{layout_in, posted_in};

    /// A network of this plan in which nothing has happened. Where memory is out, the inputs come back.
    pub fn start(self, alloc: Global) -> Result<Net<W>, AllocFailed<Inputs<W>>>
        ensures planned { IfOk result (λ made. net.layout_in made ≡ layout_in self) }
        ensures inputs { IfOk result (λ made. (run_of W.meaning made).trace.inputs ≡ posted_in self) }
        ensures fresh { IfOk result (λ made. net.parts_of made ≡ fresh_net (layout_in self) (posted_in self)) }
        ensures plan_back { IfErr result (λ failed. layout_in failed.value ≡ layout_in self) }
        ensures posted_back { IfErr result (λ failed. posted_in failed.value ≡ posted_in self) }
    {
        let Inputs { plan, lists } = self;
        match Net::new(alloc, plan, lists) {
            Ok(net) => Ok(net),
            Err((plan, lists)) => Err(AllocFailed {
                value: Inputs { plan, lists },
            }),
        }
    }
}

/// So many inputs, to which nothing is posted.
fn empty_lists(alloc: Global, count: usize) -> Result<Vec<Posted>, AllocError>
    ensures { IfOk result (λ lists. map input_of lists.items ≡ replicate count nothing_posted) }
{
    let mut lists = Vec::with_capacity(alloc, count)?;
    for _made in 0..count {
        lists.push(Posted {
            values: Vec::new(alloc),
            ending: Ending::Complete,
        })?;
    }
    Ok(lists)
}

/// Posts this value behind those of the list, or hands it back.
fn push_onto(list: &mut Posted, value: Value) -> Result<(), PostRefused>
    ensures posted { OnOk result (input_of list.new ≡ with_value value (input_of list.old)) }
    ensures kept { OnErr result (input_of list.new ≡ input_of list.old) }
    ensures back { IfErr result (λ why. why ≡ refused.Memory value) }
    ensures same_ending { list.new.ending ≡ list.old.ending }
{
    match list.values.push(value) {
        Ok(()) => Ok(()),
        Err(AllocFailed { value }) => Err(PostRefused::Memory(value)),
    }
}
