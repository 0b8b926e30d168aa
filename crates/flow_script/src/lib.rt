//! Scripts for tests: what is done to networks, line by line, and what each line has to answer.
//!
//! A text has cases, and a case has lines. `case NAME` begins it; each other line is a word, with what it is done with behind it. Behind
//! ` : ` stands what the line has to answer, as the library's own answer is printed for debugging, or one of several such answers, between
//! which ` | ` stands. A line with no such thing has to answer nothing, or `Ok(())`. So a question of which no answer is stated fails, and
//! so do a word that there is not, and words that are left over. What fails ends its case, and the next one begins. A line that begins
//! with `#` is a remark.
//!
//! at the beginning of a case
//! `net NETWORK [with RECORDS]`   a network that is drawn, whose inputs have these records
//! `exitend`                      the end of a link out of a network, by hand
//!
//! before a network starts
//! `post B N`, `end B HOW`        posts a number to an input, and says how it ends: `open`, `complete` or `fault 7`
//! `start`                        it starts
//!
//! to a network of one owner
//! `settle [N]`                   does events until none may happen, at most so many
//! `state B`, `record B`, `posted B`
//! `entry B [N]`, `exit B [N]`    what follows is done at a port, each look of which does so many events at most; or there is none
//!
//! at a port
//! `post N`, `send N`, `look`, `accepted`, `finish HOW`
//! `receive`, `available`, `received`
//! `future post N`, `future send N`, `future receive`, `future output`: a future that is polled once
//! `leave`                        what follows is done to the network again
//!
//! to an end by hand
//! `phase WORD ID`, `phase ended HOW`   it looks at this phase of its link: `offered`, `posted`, `given`
//! `go N`                         it does what it does next, with this number where it takes a message out of the slot
//! `ask`, `unask`, `receive`, `received`, `next`, `outcome`
#![tactic(auto)]

mod ends;
mod judge;
mod lines;
mod nets;
mod ports;
mod said;
mod stage;

pub use judge::{Judged, judge_text};
