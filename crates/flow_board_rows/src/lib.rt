//! Tests of networks that are scattered, turned and gathered: what the tasks did, what became of values at entries and came out of
//! exits, and what the network has then.
#![tactic(auto)]

#[cfg(test)]
mod actors;
#[cfg(test)]
mod bounded;
#[cfg(test)]
mod entries;
#[cfg(test)]
mod exits;
#[cfg(test)]
mod lanes;
#[cfg(test)]
mod missing;
#[cfg(test)]
mod networks;
#[cfg(test)]
mod offers;
#[cfg(test)]
mod polls;
#[cfg(test)]
mod ports;
#[cfg(test)]
mod rounds;
#[cfg(test)]
mod told;
#[cfg(test)]
mod turned;
#[cfg(test)]
mod watches;
