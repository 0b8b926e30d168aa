//! Tests of values, functions and predicates by themselves, where no text reaches them; of ports, actors and the futures over
//! them, each over a small port of the tests; and of the two ends of a link.
#![tactic(auto)]

#[cfg(test)]
mod chance;
#[cfg(test)]
mod check;
#[cfg(test)]
mod completing;
#[cfg(test)]
mod counter;
#[cfg(test)]
mod desk;
#[cfg(test)]
mod driven;
#[cfg(test)]
mod hand_over;
#[cfg(test)]
mod receiver;
#[cfg(test)]
mod receiving;
#[cfg(test)]
mod refusals;
#[cfg(test)]
mod sender;
#[cfg(test)]
mod sending;
#[cfg(test)]
mod shelf;
#[cfg(test)]
mod turning;
#[cfg(test)]
mod values;
