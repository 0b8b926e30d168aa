//! Tests of each part of a network by itself: plans and phases, ports, outlets, spreads, blocks and their jobs; of blocks by
//! their types, each made of a small plan; and of the lanes of a block, on one thread and on two.
#![tactic(auto)]

#[cfg(test)]
mod blocks;
#[cfg(test)]
mod by_hand;
#[cfg(test)]
mod check;
#[cfg(test)]
mod driven;
#[cfg(test)]
mod intake;
#[cfg(test)]
mod jobs;
#[cfg(test)]
mod lane_jobs;
#[cfg(test)]
mod links;
#[cfg(test)]
mod outlet;
#[cfg(test)]
mod plain;
#[cfg(test)]
mod plans;
#[cfg(test)]
mod reserved;
#[cfg(test)]
mod reserving;
#[cfg(test)]
mod script;
#[cfg(test)]
mod shared;
#[cfg(test)]
mod shared_lanes;
#[cfg(test)]
mod spread;
#[cfg(test)]
mod two_lanes;
#[cfg(test)]
mod two_lanes_threads;
#[cfg(test)]
mod two_threads;
#[cfg(test)]
mod typed_joins;
#[cfg(test)]
mod works;
