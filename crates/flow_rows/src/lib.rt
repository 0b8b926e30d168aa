//! Tests of the libraries from above: networks and records as texts, each with what is due of it, and devices that fail. Tests of records
//! that are sifted and of reports that are merged, each over runs of small networks.
#![tactic(auto)]

#[cfg(test)]
mod cases;
#[cfg(test)]
mod check;
#[cfg(test)]
mod devices;
#[cfg(test)]
mod functions;
#[cfg(test)]
mod lanes;
#[cfg(test)]
mod refused;
#[cfg(test)]
mod texts;
#[cfg(test)]
mod told;
