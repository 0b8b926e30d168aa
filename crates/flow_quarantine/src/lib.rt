//! Sets those records of a text aside that fault, each as if it were run alone.
//!
//! Proved: safe and total.
//! Tested: that records that fault are set aside with line and fault, and all others come out as they went in, where they are run together
//! as where each is run alone.
#![tactic(auto)]

mod alone;
mod apart;
mod aside;
mod meet;
mod pace;
mod post;
mod sieve;
mod spot;
mod through;
mod together;

pub use sieve::{Sifted, sift};
