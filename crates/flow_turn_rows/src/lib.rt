//! Tests of runs that are scattered into tasks: networks of tables, each with its records, turned by one thread or by two, run by a crew, fed by
//! another thread, stopped anywhere and gathered. Each comes to the end that is due of it. Tests of crews: rounds of them, what they do at
//! one time, and where they stop.
#![tactic(auto)]

#[cfg(test)]
mod alone;
#[cfg(test)]
mod crew;
#[cfg(test)]
mod crews;
#[cfg(test)]
mod ends;
#[cfg(test)]
mod exits;
#[cfg(test)]
mod halves;
#[cfg(test)]
mod journals;
#[cfg(test)]
mod limits;
#[cfg(test)]
mod midway;
#[cfg(test)]
mod missing;
#[cfg(test)]
mod networks;
#[cfg(test)]
mod numbers;
#[cfg(test)]
mod opened;
#[cfg(test)]
mod overlap;
#[cfg(test)]
mod paced;
#[cfg(test)]
mod phases;
#[cfg(test)]
mod pieces;
#[cfg(test)]
mod rounds;
#[cfg(test)]
mod sends;
#[cfg(test)]
mod stops;
#[cfg(test)]
mod threads;
#[cfg(test)]
mod turned;
#[cfg(test)]
mod watched;
#[cfg(test)]
mod workers;
