ghost use Rattle.std.specs.Prelude.{◌≡◌, ◌==◌, ◌&&◌, not, map, filter, IfOk};
ghost use Rattle.partition_table.specs.Rows.{is_among};
ghost use Rattle.partition_protocol.specs.Service.{numbers_below};

use grid_base::{Bytes, MemberId, Memory};
use std::alloc::Global;

/// Whether another member is one of which a member wasn't told.
pub fn is_peer(number: MemberId, told: &[MemberId], other: MemberId) -> bool
    ensures { result ≡ (not (other == number) && not (is_among told.now other)) }
{
    other != number && !told.contains(&other)
}

/// The other members of which a member wasn't told, in rising order.
pub fn peers(
    alloc: Global,
    size: u8,
    number: MemberId,
    told: &[MemberId],
) -> Result<Vec<MemberId>, Memory>
    ensures { IfOk result (λ peers. peers.items ≡ filter (λ p. not (p == number) && not (is_among told.now p)) (numbers_below size)) }
{
    let mut peers = Vec::with_capacity(alloc, usize::from(size))?;
    for member in 0..size {
        if is_peer(number, told, member) {
            peers.push(member)?;
        }
    }
    Ok(peers)
}

/// The same message to each of these members.
pub fn to_each(
    alloc: Global,
    message: &Bytes,
    members: &[MemberId],
) -> Result<Vec<(u8, Bytes)>, Memory>
    ensures { IfOk result (λ out. out.items ≡ map (λ m. (m, message.now)) members.now) }
{
    let mut out = Vec::with_capacity(alloc, members.len())?;
    for member in members {
        out.push((*member, message.copied(alloc)?))?;
    }
    Ok(out)
}
