//! Tests of networks on one thread. Ports that own one, as scripts: what goes in at an entry and comes out of an exit, message by message,
//! and by the futures over them; the end of a link out of a network; inputs and blocks by their names; a block by hand for whose end a
//! future waits, and one that is known by its traits alone; scripts themselves. And networks that are driven event by event.
#![tactic(auto)]

#[cfg(test)]
mod check;
#[cfg(test)]
mod completions;
#[cfg(test)]
mod ends;
#[cfg(test)]
mod events;
#[cfg(test)]
mod names;
#[cfg(test)]
mod ports;
#[cfg(test)]
mod steady;
#[cfg(test)]
mod wrong;
