//! Which reports of members the log refuses, by its map.
ghost use Rattle.std.specs.Prelude.{◌≡◌, ◌≢◌, ◌||◌, Some};
ghost use Rattle.std.specs.List.{list_any};
ghost use Rattle.pgp_map.specs.MapOf.{Says};
ghost use Rattle.pgp_log.specs.ReportFault.{has_unknown_member, is_bad_version, are_bad_ends, is_zero, has_bad_info, report_fault, info_fault, entries_fault};

use pgp_ids::{Epoch, Info, LogEntry, Member, PgId, Refusal, Report, Version};
use pgp_map::OsdMap;

/// Why the log refuses an info, if it does.
pub fn info_fault(map: &OsdMap, info: &Info) -> Option<Refusal>
    ensures fault { Says map.now (λ incs. result ≡ info_fault incs info.now) }
    ensures memory { result ≢ Some Refusal.Memory }
{
    report_fault(map, &info.pg, &info.member, info.stamp, has_bad_info(info))
}

/// Why the log refuses a report of log entries, if it does.
pub fn entries_fault(map: &OsdMap, report: &Report) -> Option<Refusal>
    ensures fault { Says map.now (λ incs. result ≡ entries_fault incs report.now) }
    ensures memory { result ≢ Some Refusal.Memory }
{
    let bad = has_bad_entries(report.stamp, report.log.as_slice());
    report_fault(map, &report.pg, &report.member, report.stamp, bad)
}

/// The first refusal of a report; `bad` says whether its versions are.
fn report_fault(
    map: &OsdMap,
    pg: &PgId,
    member: &Member,
    stamp: Epoch,
    bad: bool,
) -> Option<Refusal>
    ensures fault { Says map.now (λ incs. result ≡ report_fault incs pg.now member.now stamp bad) }
    ensures memory { result ≢ Some Refusal.Memory }
{
    if !map.has_group(pg) {
        Some(Refusal::UnknownGroup)
    } else if has_unknown_member(map, pg, member) {
        Some(Refusal::UnknownMember)
    } else if map.epoch() < stamp {
        Some(Refusal::FutureStamp)
    } else if bad {
        Some(Refusal::BadVersion)
    } else {
        None
    }
}

/// The device is absent, or the group can't have the slot.
fn has_unknown_member(map: &OsdMap, pg: &PgId, member: &Member) -> bool
    ensures { Says map.now (λ incs. result ≡ has_unknown_member incs pg.now member.now) }
{
    // A slot of a pool in which each member has a place is below its size, that of any other pool is 0.
    let has_slot = match map.pool(pg.pool) {
        Some(pool) if pool.kind.is_by_place() => member.slot < pool.size,
        Some(_) => member.slot == 0,
        None => true,
    };
    !map.exists(member.osd) || !has_slot
}

fn has_bad_info(info: &Info) -> bool
    ensures { result ≡ has_bad_info info.now }
{
    is_bad_version(info.stamp, info.last_update)
        || is_bad_version(info.stamp, info.log_tail)
        || info.stamp < info.les
        || info.stamp < info.history_les
        || info.stamp < info.last_epoch_clean
        || are_bad_ends(info.log_tail, info.last_update)
}

fn has_bad_entries(stamp: Epoch, log: &[LogEntry]) -> bool
    ensures { result ≡ list_any (λ entry. is_zero entry.version || is_bad_version stamp entry.version) log.now }
{
    log.iter().any(|entry| {
        entry.version.epoch.number() == 0 && entry.version.v == 0
            || is_bad_version(stamp, entry.version)
    })
}

/// One part is 0 and the other not, or the epoch is above the stamp.
fn is_bad_version(stamp: Epoch, version: Version) -> bool
    ensures { result ≡ is_bad_version stamp version }
{
    (version.epoch.number() != 0 && version.v == 0)
        || (version.epoch.number() == 0 && version.v != 0)
        || stamp < version.epoch
}

/// The two versions can't be the ends of one log.
fn are_bad_ends(tail: Version, last: Version) -> bool
    ensures { result ≡ are_bad_ends tail last }
{
    last.is_older_than(tail) || last.v < tail.v || (tail.v == last.v && tail != last)
}
