//! Whom a group has heard.

ghost use Rattle.std.specs.Prelude.{◌≡◌, not, false, Contains, filter, IfOk, IfSome, IfNone, OnOk};
ghost use Rattle.std.specs.List.{list_any};
ghost use Rattle.pgp_info.specs.Best.{HasDistinctMembers};
ghost use Rattle.pgp_info.specs.Heard.{with_infos};
ghost use Rattle.pgp_group.specs.GroupLog.{GroupLog};
ghost use Rattle.pgp_group.specs.Heard.{has_member, is_counted, last_of_each_member};
ghost use Rattle.pgp_group.specs.Heard.{counts};
ghost use Rattle.pgp_group.specs.Present.{IsPresent};

use pgp_ids::{Epoch, Info, Member};
use pgp_info::{Best, Preference};
use pgp_map::OsdMap;
use std::alloc::{AllocError, Global};

/// Whether a report of this member and stamp counts: it is of the interval that began at the epoch `first`, and its device
/// has been up since.
pub fn is_counted(map: &OsdMap, first: Epoch, member: Member, stamp: Epoch) -> bool
    ensures { (g : GroupLog) → IsPresent g map.now first → result ≡ is_counted g member stamp }
{
    first <= stamp && map.is_up(member.osd) && map.up_from(member.osd) <= stamp
}

/// Of each member that has one of these infos which counts, the last one, by the last map and the first epoch of the current
/// interval; and the best of them by this preference.
pub fn last_infos(
    alloc: Global,
    map: &OsdMap,
    first: Epoch,
    told: &[Info],
    prefer: Preference,
) -> Result<Best<Preference>, AllocError>
    ensures { IfOk result (λ best. (g : GroupLog) → IsPresent g map.now first
        → best ≡ record { prefer = prefer; infos = last_of_each_member (filter (counts g) told.now) }) }
{
    let mut best = Best::new(alloc, prefer);
    hear(&mut best, map, first, told)?;
    Ok(best)
}

/// Puts those of these infos that count, in their order.
pub(crate) fn hear(
    best: &mut Best<Preference>,
    map: &OsdMap,
    first: Epoch,
    told: &[Info],
) -> Result<(), AllocError>
    ensures { OnOk result ((g : GroupLog) → IsPresent g map.now first
        → best.new ≡ record best.old { infos = with_infos (filter (counts g) told.now) best.old.infos }) }
{
    for info in told {
        if is_counted(map, first, info.member, info.stamp) {
            best.put(*info)?;
        }
    }
    Ok(())
}

/// Drops the infos that don't count.
pub(crate) fn forget_uncounted(best: &mut Best<Preference>, map: &OsdMap, first: Epoch)
    ensures { (g : GroupLog) → IsPresent g map.now first → HasDistinctMembers best.old.infos
        → best.new ≡ record best.old { infos = filter (counts g) best.old.infos } }
{
    while let Some(info) = uncounted(best.infos(), map, first) {
        best.drop_member(&info.member);
    }
}

/// The first of these infos that doesn't count.
fn uncounted(infos: &[Info], map: &OsdMap, first: Epoch) -> Option<Info>
    ensures there { IfSome result (Contains infos.now) }
    ensures uncounted { IfSome result (λ info. (g : GroupLog) → IsPresent g map.now first → counts g info ≡ false) }
    ensures none { IfNone result ((g : GroupLog) → IsPresent g map.now first → filter (counts g) infos.now ≡ infos.now) }
{
    for info in infos {
        if !is_counted(map, first, info.member, info.stamp) {
            return Some(*info);
        }
    }
    None
}

/// Whether one of these members wasn't heard.
pub(crate) fn is_waiting(probe: &[Member], heard: &Best<Preference>) -> bool
    ensures { result ≡ list_any (λ member. not (has_member member heard.now.infos)) probe.now }
{
    probe.iter().any(|member| heard.info_of(member).is_none())
}
