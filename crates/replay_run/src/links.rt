//! The links of a partition, between its members and the table service, and the messages in flight on them.

ghost use Rattle.std.specs.Prelude.{◌≡◌, ◌-◌, ◌≤◌, ◌++◌, List, length, sum_by, IfOk, OnOk};
ghost use Rattle.std.specs.List.{flat_map};
ghost use Rattle.partition_protocol.specs.Events.{Event as ProtocolEvent};
ghost use Rattle.grid_base.specs.Shelves.{meaning};
ghost use Rattle.partition_world.specs.Sending.{flying};
ghost use Rattle.partition_world.specs.Worlds.{StandsFor, run_of};
ghost use Rattle.partition_world.specs.LinkOrder.{links_from, links_of};
ghost use Rattle.replay_run.specs.Printing.{link_text_from, message_text};

use grid_base::{Bytes, Memory, Shelf};
use line_told::{push_hex, push_number, push_text, push_word};
use partition_world::{Link, Records, World};
use std::alloc::Global;

/// A partition with so many messages on one link takes no event but a loss.
pub const MOST_IN_FLIGHT: usize = 65_400;

/// Adds the links from one end to each of so many.
fn push_links_from(links: &mut Vec<Link>, from: u8, ends: u8) -> Result<(), Memory>
    requires { 1 ≤ ends }
    ensures { OnOk result (links.new.items ≡ links.old.items ++ links_from (ends - 1) from) }
{
    for to in 0..ends {
        links.push(Link { from, to })?;
    }
    Ok(())
}

/// The links of a partition with so many members, in order of their senders and takers.
pub(crate) fn links_of(alloc: Global, members: u8) -> Result<Vec<Link>, Memory>
    requires { members ≤ 8 }
    ensures { IfOk result (λ links. links.items ≡ links_of members) }
{
    let ends = members + 1;
    let mut links = Vec::with_capacity(alloc, usize::from(ends) * usize::from(ends))?;
    for from in 0..ends {
        push_links_from(&mut links, from, ends)?;
    }
    Ok(links)
}

/// How many messages of a partition are in flight.
pub(crate) fn in_flight<S: Shelf, R: Records<S::Call>>(links: &[Link], world: &World<S, R>) -> u128
    ensures { (plan : S.Plan) (events : List (ProtocolEvent S.Call)) → let k = meaning S.model plan in
        StandsFor k R.records S.model.within_limits world.now events → result ≡ sum_by (λ (l : Link). length (flying k (run_of k world.now events) l.from l.to)) links.now }
{
    let mut messages = 0;
    for link in links {
        messages += world.in_flight(link.from, link.to).len() as u128;
    }
    messages
}

/// Appends a message in flight.
fn push_message(
    alloc: Global,
    out: &mut Vec<u8>,
    line: u32,
    link: Link,
    place: usize,
    message: &Bytes,
) -> Result<(), Memory>
    ensures { OnOk result (out.new.items ≡ out.old.items ++ message_text line link place message.now) }
{
    push_number(out, u64::from(line))?;
    push_word(out, b"link")?;
    push_number(out, u64::from(link.from))?;
    push_number(out, u64::from(link.to))?;
    push_number(out, place as u64)?;
    push_hex(alloc, out, message.as_slice())?;
    push_text(out, b"\n")
}

/// Appends the messages in flight on a link.
fn push_link(
    alloc: Global,
    out: &mut Vec<u8>,
    line: u32,
    link: Link,
    messages: &[Bytes],
) -> Result<(), Memory>
    ensures { OnOk result (out.new.items ≡ out.old.items ++ link_text_from line link 0 messages.now) }
{
    for place in 0..messages.len() {
        push_message(alloc, out, line, link, place, &messages[place])?;
    }
    Ok(())
}

/// Appends a partition's messages in flight, link by link.
pub(crate) fn push_in_flight<S: Shelf, R: Records<S::Call>>(
    alloc: Global,
    out: &mut Vec<u8>,
    line: u32,
    links: &[Link],
    world: &World<S, R>,
) -> Result<(), Memory>
    ensures { (plan : S.Plan) (events : List (ProtocolEvent S.Call)) → let k = meaning S.model plan in
        StandsFor k R.records S.model.within_limits world.now events
        → OnOk result (out.new.items ≡ out.old.items ++ flat_map (λ (l : Link). link_text_from line l 0 (flying k (run_of k world.now events) l.from l.to)) links.now) }
{
    for link in links {
        push_link(alloc, out, line, *link, world.in_flight(link.from, link.to))?;
    }
    Ok(())
}
