//! The wires of links, and both ends of each.
ghost use Rattle.std.specs.Prelude.{◌≡◌, ℕ, ◌+◌, ◌<◌, ◌≤◌, length, get_or, slice_set, vec_len, vec_capacity, IfOk, OnOk, OnErr};
ghost use Rattle.flow_wire.specs.Ends.{Start};
ghost use Rattle.flow_task.specs.Wired.{AllHome, AllReady, AreClosed, AreSeated, AreWired, IsReady, OneMore, idle};

use flow_link::{LinkState, Phase};
use flow_wire::{SourceEnd, TargetEnd, Wire};
use std::alloc::{AllocError, Global};
use std::mem::replace;

/// The wires of links by their numbers, and the two ends of each, in the same order.
#[derive(Drop)]
pub struct Wired {
    pub wires: Vec<Wire>,
    pub sources: Vec<SourceEnd>,
    pub targets: Vec<TargetEnd>,
}

/// Makes a wire of each link, whose ends know what they knew; an idle link stays in its place. Where memory is out, the links are in
/// order with what their ends know, as they were.
pub fn make_wires(alloc: Global, lines: &mut Vec<LinkState>) -> Result<Wired, AllocError>
    ghost starts: { ℕ → Start }
    requires { AllReady starts lines.old.items }
    ensures made { IfOk result (λ wired. AreWired starts (length lines.old.items) wired.wires.items wired.sources.items
        wired.targets.items) }
    ensures count { length lines.new.items ≡ length lines.old.items }
    ensures back { OnErr result (AllReady starts lines.new.items) }
{
    let count = lines.len();
    let mut wired = Wired {
        wires: Vec::with_capacity(alloc, count)?,
        sources: Vec::with_capacity(alloc, count)?,
        targets: Vec::with_capacity(alloc, count)?,
    };
    for id in 0..count {
        match wired.add(alloc, &mut lines[id]) {
            Ok(()) => {}
            Err(fault) => {
                wired.close(lines);
                return Err(fault);
            }
        }
    }
    Ok(wired)
}

impl Wired {
    /// Makes the wire of one more link, for which there is room. Where memory is out, the link comes back.
    fn add(&mut self, alloc: Global, line: &mut LinkState) -> Result<(), AllocError>
        ghost start: { Start }
        requires ready { IsReady start line.old }
        requires wires { vec_len self.old.wires < vec_capacity self.old.wires }
        requires sources { vec_len self.old.sources < vec_capacity self.old.sources }
        requires targets { vec_len self.old.targets < vec_capacity self.old.targets }
        ensures added { OnOk result (OneMore start self.old.wires.items self.new.wires.items self.old.sources.items
            self.new.sources.items self.old.targets.items self.new.targets.items) }
        ensures wires { OnOk result (vec_len self.new.wires ≡ vec_len self.old.wires + 1) }
        ensures sources { OnOk result (vec_len self.new.sources ≡ vec_len self.old.sources + 1) }
        ensures targets { OnOk result (vec_len self.new.targets ≡ vec_len self.old.targets + 1) }
        ensures room { OnOk result ((vec_capacity self.new.wires ≡ vec_capacity self.old.wires) ×
            (vec_capacity self.new.sources ≡ vec_capacity self.old.sources) ×
            (vec_capacity self.new.targets ≡ vec_capacity self.old.targets)) }
        ensures kept { OnErr result (self.new ≡ self.old) }
        ensures back { OnErr result (line.new ≡ line.old) }
    {
        let state = replace(
            line,
            LinkState {
                phase: Phase::Idle,
                slot: None,
            },
        );
        match Wire::new(alloc, state) {
            Ok((wire, source, target)) => {
                self.wires.push_reserved(wire);
                self.sources.push_reserved(source);
                self.targets.push_reserved(target);
                Ok(())
            }
            Err(state) => {
                *line = state;
                Err(AllocError)
            }
        }
    }

    /// Closes all wires. Each link, in its place, is in order with what its ends know.
    pub(crate) fn close(self, lines: &mut Vec<LinkState>)
        requires seated { AreSeated self.wires.items self.sources.items self.targets.items }
        requires there { length self.wires.items ≤ length lines.old.items }
        requires home { AllHome self.sources.items }
        ensures count { length lines.new.items ≡ length lines.old.items }
        ensures closed { AreClosed (length self.wires.items) self.sources.items self.targets.items lines.new.items }
        ensures others { (l : ℕ) → length self.wires.items ≤ l → get_or lines.new.items l idle ≡ get_or lines.old.items l idle }
    {
        let Wired {
            mut wires,
            mut sources,
            mut targets,
        } = self;
        while let Some(wire) = wires.pop() {
            let Some(source) = sources.pop() else {
                unreachable!()
            };
            let Some(target) = targets.pop() else {
                unreachable!()
            };
            put_back(lines, wires.len(), wire.close(source, target));
        }
    }
}

/// Puts a link where an idle one stood.
pub(crate) fn put_back(lines: &mut Vec<LinkState>, id: usize, line: LinkState)
    requires { id < length lines.old.items }
    ensures { lines.new.items ≡ slice_set lines.old.items id line }
{
    lines[id] = line;
}
