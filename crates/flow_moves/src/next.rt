//! The links over which a block goes on.
ghost use Rattle.std.specs.Prelude.{◌<◌, length};

use flow_block::Block;
use flow_link::LinkId;

/// The link over which a block would offer next.
pub fn link_to_offer(block: &Block) -> Option<LinkId> {
    let place = block.offer_place()?;
    if place < block.out_count() {
        Some(block.out_link(place))
    } else {
        None
    }
}

/// The link over which a port of a block would consume next.
fn link_to_consume_at(block: &Block, port: usize) -> Option<LinkId>
    requires { port < length block.now.ports }
{
    let place = block.next_place(port)?;
    if place < block.in_count(port) {
        Some(block.in_link(port, place))
    } else {
        None
    }
}

/// The link over which the offer came that waits longest at a port.
pub fn link_in_front(block: &Block, port: usize) -> Option<LinkId>
    requires { port < length block.now.ports }
{
    let place = block.front(port)?;
    if place < block.in_count(port) {
        Some(block.in_link(port, place))
    } else {
        None
    }
}

/// The link over which a block would consume next, at the first of its ports that would.
pub fn link_to_consume(block: &Block) -> Option<LinkId> {
    for port in 0..block.port_count() {
        let link = link_to_consume_at(block, port);
        if link.is_some() {
            return link;
        }
    }
    None
}
