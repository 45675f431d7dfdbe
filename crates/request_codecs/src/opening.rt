//! What a client sends first on a connection.

ghost use Rattle.std.specs.Prelude.{◌≡◌, ◌++◌, IfOk, OnOk};
ghost use Rattle.std.specs.Option.{option_copied};
ghost use Rattle.frame_codec.specs.Laws.{spelled};
ghost use Rattle.request_codecs.specs.Openings.{authentication_frames, listener_frames, view_frames, opening};

use crate::parts::{begun, write_part};
use client_codecs::AUTHENTICATION_KIND;
use event_codecs::{CLUSTER_VIEW_KIND, INVALIDATION_LISTENER_KIND};
use fixed_fields::write_uuid;
use frame_codec::flags::{FINAL, UNFRAGMENTED};
use grid_base::{Bytes, Memory};
use std::alloc::Global;

/// With what each connection to a member begins.
const PREFIX: &[u8] = b"CP2";

/// The cluster's name.
const CLUSTER: &[u8] = b"dev";

/// The version of the serialization.
const SERIALIZATION: u8 = 1;

/// The correlation of the authentication.
pub const AUTHENTICATION_CORRELATION: i64 = 1;

/// The correlation of the invalidation listener, and of each invalidation.
const INVALIDATIONS_CORRELATION: i64 = 2;

/// The correlation of the registration for rows, and of each event of rows.
const ROWS_CORRELATION: i64 = 3;

/// The correlation of the first call.
pub const FIRST_CORRELATION: i64 = 4;

/// What stands for the partition where a request is in none.
const NO_PARTITION: i32 = -1;

/// Appends the message by which a client makes itself known to the cluster `dev`, with no prefix before it.
pub fn write_authentication(
    alloc: Global,
    correlation: i64,
    client: u128,
    out: &mut Vec<u8>,
) -> Result<(), Memory>
    ensures { OnOk result (out.new.items ≡ out.old.items ++ spelled (authentication_frames correlation client)) }
{
    let mut first = begun(alloc, AUTHENTICATION_KIND, correlation, NO_PARTITION)?;
    write_uuid(Some(client), &mut first)?;
    first.push(SERIALIZATION)?;
    write_part(UNFRAGMENTED, first.as_slice(), out)?;
    write_part(FINAL, CLUSTER, out)
}

/// Asks for the invalidations of the near map, where there is one.
fn write_listener(alloc: Global, map: Option<&Bytes>, out: &mut Vec<u8>) -> Result<(), Memory>
    ensures { OnOk result (out.new.items ≡ out.old.items ++ spelled (listener_frames (option_copied map.entry))) }
{
    let Some(map) = map else {
        return Ok(());
    };
    let kind = INVALIDATION_LISTENER_KIND;
    let first = begun(alloc, kind, INVALIDATIONS_CORRELATION, NO_PARTITION)?;
    write_part(UNFRAGMENTED, first.as_slice(), out)?;
    write_part(FINAL, map.as_slice(), out)
}

fn write_cluster_view(alloc: Global, out: &mut Vec<u8>) -> Result<(), Memory>
    ensures { OnOk result (out.new.items ≡ out.old.items ++ spelled view_frames) }
{
    let first = begun(alloc, CLUSTER_VIEW_KIND, ROWS_CORRELATION, NO_PARTITION)?;
    write_part(UNFRAGMENTED | FINAL, first.as_slice(), out)
}

/// The first bytes on a connection to a member: the client makes itself known by its number, asks for the invalidations of
/// its near map where it has one, and for the rows. A name that is longer than a frame can be is answered as want of memory.
pub fn write_opening(alloc: Global, client: u128, near_map: Option<&Bytes>) -> Result<Bytes, Memory>
    ensures { IfOk result (λ bytes. bytes ≡ opening client (option_copied near_map.entry)) }
{
    let mut bytes = Vec::from_slice(alloc, PREFIX)?;
    write_authentication(alloc, AUTHENTICATION_CORRELATION, client, &mut bytes)?;
    write_listener(alloc, near_map, &mut bytes)?;
    write_cluster_view(alloc, &mut bytes)?;
    Ok(Bytes::from_vec(bytes))
}
