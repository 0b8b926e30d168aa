//! Networks that are driven event by event: whatever happens first, they come to the same. Blocks that make groups of the messages of
//! several ports, copies and exits, by many orders of events.

mod batched_joins;
mod branches;
mod cases;
mod check;
mod copies;
mod exits;
mod faults;
mod joins;
mod lanes;
mod orders;
mod reserving;
mod scripts;
