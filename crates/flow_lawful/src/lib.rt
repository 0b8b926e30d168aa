//! Whole runs of a network: which are lawful and which are quiet, and that a run is so where each part of its network
//! keeps its own laws and has nothing left to do. Definitions and lemmas, without code.
//!
//! Blocks and links are proved without these: what stands on them is what speaks of whole networks.
//!
//! Proved: lemmas: a run is lawful where each part keeps its laws and each link is in order, and quiet where besides
//! none has anything left to do. No function, so no contract.
#![tactic(auto)]
