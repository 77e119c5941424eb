//! The last stamps of the infos that groups had of their members.

ghost use Rattle.std.specs.Prelude.{◌≡◌, ◌++◌, [], ◌∷◌, List, map as mapped, max, IfOk, OnOk};
ghost use Rattle.std.specs.Option.{option_copied, option_map_or};
ghost use Rattle.std.specs.Arc.{arc_value};
ghost use Rattle.pgp_ids.specs.declared.entry.Entry.{Entry as AnyEntry};
ghost use Rattle.pgp_whole.specs.kept.Hearing.{AreStamps, source_of};

use pgp_ids::{Entry, Epoch, Info, Member, OsdId, PgId};
use std::alloc::{AllocError, Global};
use std::collections::HashMap;
use std::sync::Arc;

/// For each member of a group the greatest stamp of its infos: where one of them counts, an info of that stamp does.
pub(crate) type Stamps = HashMap<Sender, Epoch>;

/// A group, and a member that sent infos to it.
#[derive(Clone, Copy, PartialEq, Eq, Hash)]
pub(crate) struct Sender {
    pub pg: PgId,
    pub osd: OsdId,
    pub slot: u8,
}

impl Sender {
    pub fn new(pg: &PgId, member: &Member) -> Self
        ensures { result ≡ source_of pg.now member.now }
    {
        Sender {
            pg: *pg,
            osd: member.osd,
            slot: member.slot,
        }
    }
}

/// The greatest stamps of all infos among the entries.
pub(crate) fn stamps_of(alloc: Global, entries: &[Arc<Entry>]) -> Result<Stamps, AllocError>
    ensures { IfOk result (AreStamps (mapped arc_value entries.now)) }
{
    let mut stamps = HashMap::new(alloc);
    for entry in entries {
        put_entry(&mut stamps, entry)?;
    }
    Ok(stamps)
}

/// Keeps the stamp of the entry, where that is an info.
fn put_entry(stamps: &mut Stamps, entry: &Entry) -> Result<(), AllocError>
    ensures { OnOk result ((entries : List AnyEntry) → AreStamps entries stamps.old → AreStamps (entries ++ entry.now ∷ []) stamps.new) }
{
    if let Entry::Info(info) = entry {
        let sender = Sender::new(&info.pg, &info.member);
        let stamp = later(info.stamp, stamps.get(&sender));
        stamps.insert(sender, stamp)?;
    }
    Ok(())
}

/// The later of a stamp and one that may be there.
fn later(stamp: Epoch, other: Option<&Epoch>) -> Epoch
    ensures { result ≡ option_map_or (λ other. max stamp other) (option_copied other.entry) stamp }
{
    match other {
        Some(other) => stamp.max(*other),
        None => stamp,
    }
}
