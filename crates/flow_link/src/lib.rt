//! Networks as they are written and as they are checked, and the links between their blocks: the phase of a hand-over,
//! the moves of its two ends, and the word that stores a phase.
//!
//! A link belongs to no block: its source and its target each make their own moves, and know of the other only what
//! they find at the link. When the two agree is a definition of contracts, `LinkOk`; each move and each look keeps
//! it.
//!
//! What a run leaves behind is a journal of marks for each block. Which runs are lawful and which are quiet are
//! definitions of `flow_lawful`; `flow_law` states the laws, and shows by examples what the definitions let through and
//! what they refuse. Tests on lists, by which all of this is said, stand in specs/Lists.antt.
//!
//! Proved: the table of moves of a link and its words; what kinds, options and plans tell; `plan_check` answers a
//! plan only where no rule of the format is broken, else the first fault in its order, and the draft comes back
//! whole. The traits of blocks say of each call when it may be made and what it changes.
//! Tested: words as numbers; that a mark takes 24 bytes; that good drafts are accepted where memory is ample.
//! Neither: the texts of its faults.
#![tactic(auto)]

mod builder;
mod check;
mod cycle;
mod draft;
mod heights;
mod kinds;
mod layout;
mod options;
mod phase;
mod plan;
mod posted;
mod stage;
mod trace;
mod traits;

pub use builder::DraftRefused;
pub use check::{PlanRefusal, plan_check};
pub use draft::{BlockDef, BlockKind, Draft, LinkDef};
pub use kinds::{
    BlockUnit, FEWEST_PORTS, KindOptions, LARGEST_GROUP, MOST_LANES, MOST_MESSAGES, MOST_PORTS,
    OptionRule,
};
pub use phase::{LinkEnd, Move, Phase, phase_of, step_of, word_of};
pub use plan::{Link, LinkId, LinkSource, LinkTarget, Place, Plan, PlanFault, PortId};
pub use posted::{Posted, are_numbered};
pub use stage::{Refusal, SourceStage, TargetStage};
pub use trace::{Ending, LinkState, Mark, Outcome};
pub use traits::{
    Completing, DataflowBlock, MakeFault, SourceBlock, TargetBlock, Wish, WishAnswer,
};
