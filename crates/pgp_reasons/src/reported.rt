//! What the log says of a group.

ghost use Rattle.std.specs.Prelude.{◌≡◌, map as mapped, IfOk};
ghost use Rattle.std.specs.Arc.{arc_value};
ghost use Rattle.pgp_group.specs.GroupLog.{GroupLog};
ghost use Rattle.pgp_group.specs.Present.{IsPresent};
ghost use Rattle.pgp_reasons.specs.Reported.{infos_in, info_in, entries_in};

use pgp_group::is_counted;
use pgp_ids::{Entry, Epoch, Info, LogEntry, Member, PgId, Seq};
use pgp_map::OsdMap;
use std::alloc::{AllocError, Global};
use std::sync::Arc;

/// The infos of the group in the order in which they came, whether they count or not.
pub(crate) fn infos_in(
    alloc: Global,
    entries: &[Arc<Entry>],
    pg: &PgId,
) -> Result<Seq<Info>, AllocError>
    ensures { IfOk result (λ infos. infos ≡ infos_in pg.now (mapped arc_value entries.now)) }
{
    let mut infos = Vec::new(alloc);
    for entry in entries {
        if let Some(info) = info_in(entry, pg) {
            infos.push(info)?;
        }
    }
    Ok(Seq::from_vec(infos))
}

/// The entry's info, if it is an info of the group.
fn info_in(entry: &Entry, pg: &PgId) -> Option<Info>
    ensures { result ≡ info_in pg.now entry.now }
{
    match entry {
        Entry::Info(info) if info.pg == *pg => Some(*info),
        _ => None,
    }
}

/// The log entries that the entry reports of the group's member, if it is such a report and it counts.
pub(crate) fn entries_in<'a>(
    entry: &'a Entry,
    map: &OsdMap,
    pg: &PgId,
    first: Epoch,
    member: &Member,
) -> &'a [LogEntry]
    ensures { (g : GroupLog) → IsPresent g map.now first → g.pg ≡ pg.now → result.now ≡ entries_in g member.now entry.now }
{
    match entry {
        Entry::Entries(report)
            if report.pg == *pg
                && report.member == *member
                && is_counted(map, first, report.member, report.stamp) => { report.log.as_slice() }
        _ => &[],
    }
}
