//! Schedules: events of a network in an order of chance, or in a given one.
ghost use Rattle.std.specs.Prelude.{◌≤◌};

use crate::asked::{Asked, Results, is_done};
use crate::nets::ENOUGH;
use flow_link::{LinkEnd, Move, Plan};
use flow_net::Net;
use flow_value::{MessageHeader, Steps};
use std::alloc::{AllocError, Global};
use std::test::Fail;

/// Numbers that look like chance, the same for the same start.
#[derive(Drop)]
struct Chance {
    state: u64,
}

impl Chance {
    /// The next number, by the multiplier and increment of Knuth's MMIX.
    fn up_to(&mut self, most: usize) -> usize
        ensures { result ≤ most }
    {
        self.state = self
            .state
            .wrapping_mul(6364136223846793005)
            .wrapping_add(1442695040888963407);
        let found = (self.state >> 33) as usize;
        match most.checked_add(1) {
            Some(count) => found % count,
            None => most,
        }
    }
}

/// Moves that a link makes in a run here, and some that it never makes.
fn moves(alloc: Global) -> Result<Vec<Move>, Fail> {
    let plain = [
        Move::Want,
        Move::Refuse,
        Move::Give,
        Move::Open,
        Move::Close,
        Move::End(LinkEnd::Plain),
        Move::End(LinkEnd::Complete),
        Move::End(LinkEnd::Fault(1)),
        Move::End(LinkEnd::Fault(5)),
        Move::End(LinkEnd::Fault(7)),
        Move::End(LinkEnd::Fault(9)),
        Move::TurnDown,
        Move::Postpone,
        Move::Consume,
        Move::Withdraw,
        Move::Deny,
        Move::Ask,
        Move::Hold,
        Move::Claim,
        Move::Release,
        Move::Post(header(1)?),
    ];
    let mut moves = plain.to_vec(alloc)?;
    for id in 1..22 {
        moves.push(Move::Offer(header(id)?))?;
    }
    Ok(moves)
}

fn header(id: u64) -> Result<MessageHeader, Fail> {
    Ok(MessageHeader::new(id).ok_or("no id")?)
}

/// Puts these among the others, each at a place of chance.
fn put(choices: &mut Vec<Asked>, these: &[Asked], chance: &mut Chance) -> Result<(), AllocError> {
    for asked in these {
        let place = chance.up_to(choices.len());
        choices.insert(place, *asked)?;
    }
    Ok(())
}

/// All that may be asked of a network, in an order of chance.
fn shuffled(alloc: Global, plan: &Plan<Steps>, chance: &mut Chance) -> Result<Vec<Asked>, Fail> {
    let moves = moves(alloc)?;
    let mut choices = Vec::new(alloc);
    for id in 0..plan.link_count() {
        for step in &moves {
            put(&mut choices, &[Asked::Link(id, *step)], chance)?;
        }
    }
    for number in 0..plan.block_count() {
        put(&mut choices, &steps_of(number), chance)?;
    }
    Ok(choices)
}

/// Does the first of these that may happen, and tells whether there is one.
fn do_one(
    alloc: Global,
    net: &mut Net<Steps>,
    results: &mut Results,
    choices: &[Asked],
) -> Result<bool, Fail> {
    for asked in choices {
        if is_done(alloc, net, results, *asked)? {
            return Ok(true);
        }
    }
    Ok(false)
}

/// Does events until none may happen, and tells whether the network is quiet then, and was not before. With an even
/// seed the first in an order of chance is done each time, with an odd one the search begins anywhere in that order.
pub fn wander(alloc: Global, net: &mut Net<Steps>, seed: u64) -> Result<bool, Fail> {
    let mut chance = Chance { state: seed };
    let choices = shuffled(alloc, net.plan(), &mut chance)?;
    let mut results = Vec::new(alloc);
    let always_first = seed % 2 == 0;
    for _ in 0..ENOUGH {
        let begin = if always_first {
            0
        } else {
            chance.up_to(choices.len())
        };
        let (later, first) = choices.split_at(begin);
        let quiet = net.is_quiet();
        let moved = do_one(alloc, net, &mut results, first)?
            || do_one(alloc, net, &mut results, later)?;
        if quiet || !moved {
            return Ok(quiet && !moved);
        }
    }
    Ok(false)
}

/// All that may be asked of a network, in the order of its links and blocks: links first or blocks first, and then it
/// may be turned round.
pub fn in_order(
    alloc: Global,
    plan: &Plan<Steps>,
    links_first: bool,
    backwards: bool,
) -> Result<Vec<Asked>, Fail> {
    let mut links = link_choices(alloc, plan)?;
    let mut blocks = block_choices(alloc, plan)?;
    if links_first {
        links.append(&mut blocks)?;
    } else {
        blocks.append(&mut links)?;
    }
    let mut choices = if links_first { links } else { blocks };
    if backwards {
        choices.reverse();
    }
    Ok(choices)
}

fn link_choices(alloc: Global, plan: &Plan<Steps>) -> Result<Vec<Asked>, Fail> {
    let moves = moves(alloc)?;
    let mut choices = Vec::new(alloc);
    for id in 0..plan.link_count() {
        for step in &moves {
            choices.push(Asked::Link(id, *step))?;
        }
    }
    Ok(choices)
}

fn block_choices(alloc: Global, plan: &Plan<Steps>) -> Result<Vec<Asked>, Fail> {
    let mut choices = Vec::new(alloc);
    for number in 0..plan.block_count() {
        choices.extend_from_slice(&steps_of(number))?;
    }
    Ok(choices)
}

/// What a block may do by itself, which has three ports at most.
fn steps_of(number: usize) -> [Asked; 8] {
    [
        Asked::Make(number),
        Asked::Begin(number),
        Asked::End(number, None),
        Asked::Complete(number, 0),
        Asked::Complete(number, 1),
        Asked::Complete(number, 2),
        Asked::Fault(number),
        Asked::Done(number),
    ]
}

/// Does the first of these that may happen, again and again, and tells whether the network is quiet when none may.
pub fn do_first(alloc: Global, net: &mut Net<Steps>, choices: &[Asked]) -> Result<bool, Fail> {
    let mut results = Vec::new(alloc);
    for _ in 0..ENOUGH {
        if !do_one(alloc, net, &mut results, choices)? {
            return Ok(net.is_quiet());
        }
    }
    Ok(false)
}
