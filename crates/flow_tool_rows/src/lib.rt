//! Tests of the tools around a run: what is said of networks and records, what is read and made of reports, records that are
//! cut and dealt out, rows as records, records that are run alone or chunk by chunk, and reports of parts that are merged.
#![tactic(auto)]

#[cfg(test)]
mod broken_reports;
#[cfg(test)]
mod broken_texts;
#[cfg(test)]
mod check;
#[cfg(test)]
mod cuts;
#[cfg(test)]
mod feed;
#[cfg(test)]
mod hints;
#[cfg(test)]
mod keys;
#[cfg(test)]
mod merged;
#[cfg(test)]
mod networks;
#[cfg(test)]
mod page;
#[cfg(test)]
mod places;
#[cfg(test)]
mod records;
#[cfg(test)]
mod refused;
#[cfg(test)]
mod reports;
#[cfg(test)]
mod results;
#[cfg(test)]
mod sifted;
#[cfg(test)]
mod sifted_alone;
#[cfg(test)]
mod stream;
#[cfg(test)]
mod stream_workers;
#[cfg(test)]
mod told;
#[cfg(test)]
mod traces;
#[cfg(test)]
mod unequal;
#[cfg(test)]
mod verdicts;
#[cfg(test)]
mod warned;
