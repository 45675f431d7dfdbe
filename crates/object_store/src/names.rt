//! The names of objects, as they stand in bytes that are read.

ghost use Rattle.std.specs.Prelude.{◌≡◌, ℕ, List};
ghost use Rattle.std.specs.Borrow.{Bor};
ghost use Rattle.object_store.specs.Partitions.{object_cmp};
ghost use Rattle.object_store.specs.Names.{is_past, past_at};
ghost use Rattle.object_store.specs.Reading.{names_at, lone_name_at, kind_at, map_key_at, queue_at, object_at};
ghost use Rattle.wire_parts.specs.Parts.{Gives};

use crate::tags::{ENTRY_KIND, QUEUE_KIND};
use std::cmp::Ordering;
use std::marker::Model;
use wire_parts::{Cursor, WireRefused};

/// The name of an object, whose parts are those of the bytes that were read.
#[derive(Drop)]
pub(crate) struct Name<'a> {
    pub(crate) is_queue: bool,
    /// A queue's name, or the map of an entry.
    pub(crate) name: &'a [u8],
    /// The key of an entry.
    pub(crate) key: &'a [u8],
}

impl<'a> Model for Name<'a> {
    ghost use Rattle.std.specs.Prelude.{cond};
    ghost use Rattle.grid_base.specs.declared.names.ObjectKey.{ObjectKey};
    ghost use Rattle.grid_base.specs.declared.names.ObjectKey.TheVariants.{Entry, Queue};
    ghost use Rattle.object_store.specs.Codes.{name_code};

    ghost Value = { ObjectKey };

    ghost coded = { name_code };

    ghost view = { λ n. cond n.is_queue (Queue n.name.now) (Entry n.name.now n.key.now) };
}

impl<'a> Name<'a> {
    /// In the order of snapshots.
    fn order(&self, other: &Name<'_>) -> Ordering
        ensures { result ≡ object_cmp self.now other.now }
    {
        match (self.is_queue, other.is_queue) {
            (false, true) => Ordering::Less,
            (true, false) => Ordering::Greater,
            (true, true) => self.name.cmp(other.name),
            (false, false) => self.name.cmp(other.name).then(self.key.cmp(other.key)),
        }
    }
}

/// A map and a key.
#[tactic(auto, unfolding(crate::specs::Reading::names_at))]
fn read_names<'a>(from: &mut Cursor<'a>) -> Result<(&'a [u8], &'a [u8]), WireRefused>
    ensures { Gives (λ (names : Bor (List ℕ) × Bor (List ℕ)). ((names.0.now, names.1.now), from.new))
        result (names_at from.old) }
{
    let map = from.sized()?;
    let key = from.sized()?;
    Ok((map, key))
}

/// The name of a queue, which has no key.
#[tactic(auto, unfolding(crate::specs::Reading::lone_name_at))]
fn read_lone_name<'a>(from: &mut Cursor<'a>) -> Result<&'a [u8], WireRefused>
    ensures { Gives (λ (name : Bor (List ℕ)). (name.now, from.new)) result (lone_name_at from.old) }
{
    let name = from.sized()?;
    let at = from.at();
    match from.sized()? {
        [] => Ok(name),
        [_, ..] => Err(WireRefused::Tag { at }),
    }
}

#[tactic(auto, unfolding(crate::specs::Reading::kind_at))]
fn read_kind(kind: u8, from: &mut Cursor<'_>) -> Result<u8, WireRefused>
    ensures { Gives (λ byte. (byte, from.new)) result (kind_at kind from.old) }
{
    let at = from.at();
    let byte = from.byte()?;
    if byte == kind {
        Ok(byte)
    } else {
        Err(WireRefused::Tag { at })
    }
}

/// The map and the key of what has to be an entry.
#[tactic(auto, unfolding(crate::specs::Reading::map_key_at))]
pub(crate) fn read_map_key<'a>(from: &mut Cursor<'a>) -> Result<(&'a [u8], &'a [u8]), WireRefused>
    ensures { Gives (λ (names : Bor (List ℕ) × Bor (List ℕ)). ((names.0.now, names.1.now), from.new))
        result (map_key_at from.old) }
{
    read_kind(ENTRY_KIND, from)?;
    read_names(from)
}

/// The name of what has to be a queue.
#[tactic(auto, unfolding(crate::specs::Reading::queue_at))]
pub(crate) fn read_queue_name<'a>(from: &mut Cursor<'a>) -> Result<&'a [u8], WireRefused>
    ensures { Gives (λ (name : Bor (List ℕ)). (name.now, from.new)) result (queue_at from.old) }
{
    read_kind(QUEUE_KIND, from)?;
    read_lone_name(from)
}

/// An object of any kind.
#[tactic(auto, unfolding(crate::specs::Reading::object_at, crate::specs::Reading::entry_name_at, crate::specs::Reading::queue_name_at))]
fn read_object<'a>(from: &mut Cursor<'a>) -> Result<Name<'a>, WireRefused>
    ensures { Gives (λ name. (name, from.new)) result (object_at from.old) }
{
    let at = from.at();
    match from.byte()? {
        ENTRY_KIND => {
            let (name, key) = read_names(from)?;
            Ok(Name {
                is_queue: false,
                name,
                key,
            })
        }
        QUEUE_KIND => {
            let name = read_lone_name(from)?;
            Ok(Name {
                is_queue: true,
                name,
                key: &[],
            })
        }
        _ => Err(WireRefused::Tag { at }),
    }
}

/// An object behind the last one before it, where there is one.
#[tactic(auto, unfolding(crate::specs::Names::past_at))]
pub(crate) fn read_next_object<'a>(
    last: &Option<Name<'_>>,
    from: &mut Cursor<'a>,
) -> Result<Name<'a>, WireRefused>
    ensures { Gives (λ name. (name, from.new)) result (past_at last.now from.old) }
{
    let at = from.at();
    let name = read_object(from)?;
    if is_behind(last, &name) {
        Ok(name)
    } else {
        Err(WireRefused::Order { at })
    }
}

fn is_behind(last: &Option<Name<'_>>, name: &Name<'_>) -> bool
    ensures { result ≡ is_past last.now name.now }
{
    match last {
        None => true,
        Some(last) => last.order(name).is_lt(),
    }
}
