//! What a join that reserves wishes next: it asks for offers in front, claims what is kept for it, or gives that up.
//!
//! In a network a port that has ended refuses what it postponed, and so the round fails. By hand nobody refuses there. So
//! where the round would ask for such an offer next, it fails here, and what is kept is given up first.
ghost use Rattle.std.specs.Prelude.{◌≡◌, ◌<◌, ◌==◌, true, length, position, IfSome, Some};
ghost use Rattle.flow_link.specs.Lists.{below};
ghost use Rattle.flow_intake.specs.Port.{is_holding, link_in, stage_at};
ghost use Rattle.flow_intake.specs.ByLink.{place_of};
ghost use Rattle.flow_group.specs.Round.{port_in, front_stage};
ghost use Rattle.flow_kinds.specs.ReservingJoin.{joined};
ghost use Rattle.flow_kinds.specs.Wishes.{front_at, front_place, front_move, asks_in_vain, is_failing};
ghost use Rattle.flow_kinds.specs.Wishes.{gives_up, next_at, is_own, wishes_at, wishing_port, wish_by, wishes_by};
ghost use Rattle.flow_kinds.specs.Wishes.{next_wish, after_wish, is_gone};
ghost use Rattle.flow_kinds.specs.Wishes.{is_ask, is_claim, is_release, releases_to, fronts_at, fronts, loses_front};

use flow_block::Block;
use flow_group::Round;
use flow_intake::Intake;
use flow_link::{LinkId, Move, TargetStage, Wish, WishAnswer};

/// Makes the next wish, if there is one, and tells it.
pub(crate) fn make_wish(block: &mut Block, round: &mut Round) -> Wish
    ensures told { result ≡ next_wish (joined block.old round.old) }
    ensures done { joined block.new round.new ≡ after_wish (joined block.old round.old) }
{
    let failing = is_failing(round, block);
    match wishing_port(failing, round, block) {
        Some(port) => wish_at(failing, block, round, port),
        None => Wish::None,
    }
}

/// Does what this port wishes, and tells it.
fn wish_at(failing: bool, block: &mut Block, round: &mut Round, port: usize) -> Wish
    requires there { port < length block.old.ports }
    requires wishes { wishes_at failing round.old block.old.ports port ≡ true }
    ensures told { result ≡ wish_by (next_at failing port round.old block.old.ports)
        (link_in (front_place port block.old.ports) (port_in block.old.ports port).ends) }
    ensures done { joined block.new round.new ≡ wishes_by (next_at failing port round.old block.old.ports) failing port
        (front_place port block.old.ports) (joined block.old round.old) }
{
    let next = next_at(failing, round, block, port);
    let place = front_place(block, port);
    let link = block.in_link(port, place);
    if is_ask(&next) {
        block.ask(port, place);
        Wish::Ask(link)
    } else if is_claim(&next) {
        block.claim(port, place);
        round.claim();
        Wish::Claim(link)
    } else if is_release(&next) {
        give_up(failing, block, round, port, place);
        Wish::Release(link)
    } else {
        Wish::None
    }
}

/// Gives up what is kept in front of this port. Where the round fails by that, it is so from now on.
fn give_up(failing: bool, block: &mut Block, round: &mut Round, port: usize, place: usize)
    requires port { port < length block.old.ports }
    requires place { place < length (port_in block.old.ports port).ends }
    requires holding { is_holding (stage_at place (port_in block.old.ports port)) ≡ true }
    ensures { joined block.new round.new ≡ releases_to failing port place (joined block.old round.old) }
{
    if failing {
        round.settle(true, block.ports());
    }
    block.release(port, place);
    round.settle(false, block.ports());
}

/// Whether the round would ask next for an offer at a port that has ended.
fn is_failing(round: &Round, block: &Block) -> bool
    ensures { result ≡ is_failing round.now block.now.ports }
{
    first_in_vain(round, block).is_some()
}

fn first_in_vain(round: &Round, block: &Block) -> Option<usize>
    ensures { result ≡ position (asks_in_vain round.now block.now.ports) (below (length block.now.ports)) }
{
    for port in 0..block.port_count() {
        if asks_in_vain(round, block, port) {
            return Some(port);
        }
    }
    None
}

/// Whether the round would ask for the offer in front of this port, and the port has ended.
fn asks_in_vain(round: &Round, block: &Block, port: usize) -> bool
    requires { port < length block.now.ports }
    ensures { result ≡ asks_in_vain round.now block.now.ports port }
{
    is_ask(&front_move(round, block, port)) && !block.ports()[port].is_open()
}

/// The first port at which something is to be done.
fn wishing_port(failing: bool, round: &Round, block: &Block) -> Option<usize>
    ensures port { result ≡ wishing_port failing round.now block.now.ports }
    ensures there { IfSome result (λ p. p < length block.now.ports) }
    ensures wishes { IfSome result (λ p. wishes_at failing round.now block.now.ports p ≡ true) }
{
    for port in 0..block.port_count() {
        if wishes_at(failing, round, block, port) {
            return Some(port);
        }
    }
    None
}

/// Whether something is to be done in front of this port, over a link that leads into it and whose own end it is.
fn wishes_at(failing: bool, round: &Round, block: &Block, port: usize) -> bool
    requires { port < length block.now.ports }
    ensures { result ≡ wishes_at failing round.now block.now.ports port }
{
    next_at(failing, round, block, port).is_some() && is_own(block, port)
}

/// What is to be done in front of this port: where the round fails, what is kept there is given up.
fn next_at(failing: bool, round: &Round, block: &Block, port: usize) -> Option<Move>
    requires { port < length block.now.ports }
    ensures { result ≡ next_at failing port round.now block.now.ports }
{
    if failing {
        gives_up(front_stage(&block.ports()[port]))
    } else {
        front_move(round, block, port)
    }
}

/// What the round would have the end in front of this port do.
fn front_move(round: &Round, block: &Block, port: usize) -> Option<Move>
    requires { port < length block.now.ports }
    ensures { result ≡ front_move port round.now block.now.ports }
{
    match block.front(port) {
        Some(place) => round.next(block.ports(), port, place),
        None => None,
    }
}

/// Whether the end in front of this port is the one that its link names, and the link leads into the port.
fn is_own(block: &Block, port: usize) -> bool
    requires { port < length block.now.ports }
    ensures { result ≡ is_own port (front_at port block.now.ports) block.now.ports }
{
    match block.front(port) {
        Some(place) if place < block.in_count(port) => {
            let link = block.in_link(port, place);
            place_in(&block.ports()[port], link) == Some(place) && block.port_into(link) == port
        }
        Some(_) | None => false,
    }
}

/// The place of a link's end at a port.
fn place_in(port: &Intake, link: LinkId) -> Option<usize>
    ensures { result ≡ place_of link port.now.ends }
{
    for place in 0..port.link_count() {
        if port.link(place) == link {
            return Some(place);
        }
    }
    None
}

/// The place of the end in front of this port; where none is, the first.
fn front_place(block: &Block, port: usize) -> usize
    requires { port < length block.now.ports }
    ensures { result ≡ front_place port block.now.ports }
{
    block.front(port).unwrap_or(0)
}

/// Where the end stands whose offer is in front.
fn front_stage(port: &Intake) -> TargetStage
    ensures { result ≡ front_stage port.now }
{
    match port.front() {
        Some(place) if place < port.link_count() => port.stage(place),
        Some(_) | None => TargetStage::Free,
    }
}

/// By the answer to a wish over this link the offer in front of the port into which it leads is gone.
pub(crate) fn loses_front(block: &Block, link: LinkId, answer: WishAnswer) -> bool
    ensures { result ≡ loses_front answer link block.now.ports }
{
    is_gone(answer) && fronts(block, link)
}

fn is_gone(answer: WishAnswer) -> bool
    ensures { result ≡ is_gone answer }
{
    match answer {
        WishAnswer::Coming | WishAnswer::Held => false,
        WishAnswer::NotAvailable | WishAnswer::Withdrawn => true,
    }
}

/// Whether the offer over this link is in front of the port into which the link leads.
fn fronts(block: &Block, link: LinkId) -> bool
    ensures { result ≡ fronts link block.now.ports }
{
    match block.ports().get(block.port_into(link)) {
        Some(port) => fronts_at(port, link),
        None => false,
    }
}

fn fronts_at(port: &Intake, link: LinkId) -> bool
    ensures { result ≡ fronts_at (place_of link port.now.ends) port.now }
{
    match place_in(port, link) {
        Some(place) => port.is_front(place),
        None => false,
    }
}

/// What is done with what is kept where the round fails.
fn gives_up(stage: TargetStage) -> Option<Move>
    ensures { result ≡ gives_up stage }
{
    if is_holding(stage) {
        Some(Move::Release)
    } else {
        None
    }
}

fn is_holding(stage: TargetStage) -> bool
    ensures { result ≡ is_holding stage }
{
    matches!(stage, TargetStage::Holding(_))
}

fn is_ask(next: &Option<Move>) -> bool
    ensures { result ≡ is_ask next.now }
{
    matches!(next, Some(Move::Ask))
}

fn is_claim(next: &Option<Move>) -> bool
    ensures { result ≡ is_claim next.now }
{
    matches!(next, Some(Move::Claim))
}

fn is_release(next: &Option<Move>) -> bool
    ensures { result ≡ is_release next.now }
{
    matches!(next, Some(Move::Release))
}
