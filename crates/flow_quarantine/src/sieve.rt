//! Sorts records by what becomes of each alone.
ghost use Rattle.std.specs.Prelude.{◌≤◌};

use crate::alone::{refusal_of, run_alone};
use crate::apart::keeps_apart;
use crate::aside::{Aside, Told};
use crate::pace::Pace;
use crate::spot::{Spot, text_of};
use crate::together::run_together;
use bstr::BStr;
use flow_link::Plan;
use flow_split::Records;
use flow_text::{TextFault, TextRefusal, read_plan};
use flow_value::Steps;
use std::alloc::{AllocError, Global};
use std::io::{ErrorKind, Write};

/// As many records are run together, and as many as there are blocks where those are more, since each run has all blocks made anew. One
/// record that faults costs about two such runs.
const TOGETHER: usize = 64;

/// How many records went which way.
#[derive(Clone, Copy, Default, PartialEq, Eq)]
pub struct Sifted {
    pub passed: u64,
    pub set_aside: u64,
}

/// Records of a text that stand one behind another.
#[derive(Clone, Copy)]
struct Stretch<'t> {
    text: &'t [u8],
    spots: &'t [Spot],
    limit: u64,
}

/// Sets those records aside that fault. Those that pass are written to `good` as they stand in the text, and of each
/// other a line goes to `bad`, with its number and line, both from 1, its fault, and the record.
///
/// A record passes where it can be read, its run alone is quiet within `limit` events, and no block faults in it. That other
/// records are missing, as a join or a batch may want them, is no fault. Each record that is set aside was run alone. Of those that
/// pass many are run together, where that tells the same.
pub fn sift<G: Write, B: Write>(
    alloc: Global,
    network: &[u8],
    records: &[u8],
    limit: u64,
    good: &mut G,
    bad: &mut B,
) -> Result<Sifted, TextRefusal> {
    let mut plan = read_plan(alloc, network)?;
    let most = most_together(alloc, &plan)?;
    let mut pace = Pace::new(most);
    let mut walk = Records::new(alloc, records);
    let mut sifted = Sifted::default();
    'stretches: for _ in 0..u64::MAX {
        let spots = next_spots(alloc, &mut walk, most)?;
        if spots.is_empty() {
            break;
        }
        let stretch = Stretch {
            text: records,
            spots: &spots,
            limit,
        };
        plan = sift_stretch(alloc, plan, &stretch, &mut pace, &mut sifted, good, bad)?;
    }
    Ok(sifted)
}

/// How many records are run together in this network, at most.
fn most_together(alloc: Global, plan: &Plan<Steps>) -> Result<usize, AllocError> {
    if keeps_apart(alloc, plan)? {
        Ok(TOGETHER.max(plan.block_count()))
    } else {
        Ok(1)
    }
}

/// Where the next records stand, at most so many.
fn next_spots(
    alloc: Global,
    walk: &mut Records<'_>,
    most: usize,
) -> Result<Vec<Spot>, TextRefusal> {
    let mut spots = Vec::new(alloc);
    for _ in 0..most {
        match walk.advance() {
            Ok(true) => spots.push(Spot::of(walk))?,
            Ok(false) => break,
            Err(fault) => return Err(refusal_of(fault)),
        }
    }
    Ok(spots)
}

/// Sorts the records of a stretch. What goes through together is taken whole; else the first record that does not pass is looked for, by
/// halves, and the rest begins anew behind it.
fn sift_stretch<G: Write, B: Write>(
    alloc: Global,
    mut plan: Plan<Steps>,
    stretch: &Stretch<'_>,
    pace: &mut Pace,
    sifted: &mut Sifted,
    good: &mut G,
    bad: &mut B,
) -> Result<Plan<Steps>, TextRefusal> {
    let mut rest = stretch.spots;
    // Of so many records at the front of the rest one does not pass; 0 where nothing is known.
    let mut within = 0usize;
    'parts: for _ in 0..u64::MAX {
        let count = next_count(rest.len(), within, pace.next_count());
        let (part, behind) = rest.split_at(count);
        if part.is_empty() {
            break;
        }
        let (kept, passed) = sift_part(alloc, plan, stretch, part, sifted, good, bad)?;
        plan = kept;
        if passed {
            pace.pass(part.len());
            match within {
                0 => pace.grow(),
                1 => pace.stop(),
                _ => {}
            }
            within = within.saturating_sub(part.len());
            rest = behind;
        } else if part.len() == 1 {
            pace.stop();
            within = 0;
            rest = behind;
        } else {
            within = part.len();
        }
    }
    Ok(plan)
}

/// How many records to run next, of so many, where of so many at their front one does not pass. Where that is not known, it is this many.
fn next_count(count: usize, within: usize, anew: usize) -> usize
    ensures { result ≤ count }
{
    let next = if within == 0 { anew } else { within / 2 };
    next.max(1).min(count)
}

/// Runs records and puts them to where they belong, if it is known: one is run alone, and several are taken whole where they go
/// through together. Tells whether they pass.
fn sift_part<G: Write, B: Write>(
    alloc: Global,
    plan: Plan<Steps>,
    stretch: &Stretch<'_>,
    part: &[Spot],
    sifted: &mut Sifted,
    good: &mut G,
    bad: &mut B,
) -> Result<(Plan<Steps>, bool), TextRefusal> {
    let text = text_of(stretch.text, part);
    if let [spot] = part {
        let (plan, aside) = run_alone(alloc, plan, text, stretch.limit)?;
        put(stretch.text, &plan, spot, aside, sifted, good, bad)?;
        return Ok((plan, aside.is_none()));
    }
    let (plan, passed) = run_together(alloc, plan, text, stretch.limit);
    if passed {
        put_all(stretch.text, part, sifted, good)?;
    }
    Ok((plan, passed))
}

/// Puts records that pass to the good ones.
fn put_all<G: Write>(
    text: &[u8],
    part: &[Spot],
    sifted: &mut Sifted,
    good: &mut G,
) -> Result<(), TextRefusal> {
    for spot in part {
        pass(text, spot, sifted, good)?;
    }
    Ok(())
}

fn pass<G: Write>(
    text: &[u8],
    spot: &Spot,
    sifted: &mut Sifted,
    good: &mut G,
) -> Result<(), TextRefusal> {
    written(good.write_all(spot.raw(text)))?;
    sifted.passed = sifted.passed.saturating_add(1);
    Ok(())
}

/// Puts a record that was run alone to where it belongs.
fn put<G: Write, B: Write>(
    text: &[u8],
    plan: &Plan<Steps>,
    spot: &Spot,
    aside: Option<Aside>,
    sifted: &mut Sifted,
    good: &mut G,
    bad: &mut B,
) -> Result<(), TextRefusal> {
    let Some(aside) = aside else {
        return pass(text, spot, sifted, good);
    };
    written(set_aside(bad, text, spot, Told { plan, aside }))?;
    sifted.set_aside = sifted.set_aside.saturating_add(1);
    Ok(())
}

/// What it comes to that a record was written, or not.
fn written(outcome: std::io::Result<()>) -> Result<(), TextRefusal> {
    match outcome {
        Ok(()) => Ok(()),
        Err(error) if error.kind() == ErrorKind::OutOfMemory => Err(TextRefusal::Memory),
        Err(_) => Err(TextRefusal::Fault(TextFault::Write)),
    }
}

/// Writes the line of a record that is set aside.
fn set_aside<B: Write>(
    bad: &mut B,
    text: &[u8],
    spot: &Spot,
    told: Told<'_>,
) -> std::io::Result<()> {
    let (number, line) = (spot.number, spot.line);
    let record = BStr::new(without_line_end(spot.raw(text)));
    writeln!(bad, "record {number}, line {line}: {told}: {record:?}")
}

fn without_line_end(raw: &[u8]) -> &[u8] {
    match raw {
        [record @ .., b'\r', b'\n'] | [record @ .., b'\r' | b'\n'] => record,
        _ => raw,
    }
}
