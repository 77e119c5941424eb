//! Whether one log may stand for another.

ghost use Rattle.std.specs.Prelude.{◌≡◌, map, true, IfOk, OnOk};
ghost use Rattle.std.specs.Arc.{arc_value};
ghost use Rattle.std.specs.Bool.{Decides};
ghost use Rattle.pgp_ids.specs.declared.pg_id.PgId.{PgId as Group};
ghost use Rattle.pgp_map.specs.MapOf.{Says};
ghost use Rattle.pgp_log.specs.Fits.{is_closed};
ghost use Rattle.pgp_log.specs.Log.{is_legal};
ghost use Rattle.pgp_join.specs.Alike.{AgreeApart, AreAlike, AreAlikeMaps, HaveSameReports, IsGroupAlike, ending_from};

use super::reports::{are_same_infos, are_same_reports, infos_of, reports_of};
use pgp_core::Log;
use pgp_ids::{Entry, Epoch, Past, PgId, View};
use pgp_log::is_close;
use pgp_map::OsdMap;
use std::alloc::{AllocError, Global};
use std::sync::Arc;

/// Whether the other log may stand for the log: then it answers as that one does, whatever entries follow
/// ([`logs_that_are_alike_are_answered_alike`](super::laws::logs_that_are_alike_are_answered_alike)). It asks both for each group.
pub fn are_alike(alloc: Global, log: &mut Log, other: &mut Log) -> Result<bool, AllocError>
    ensures alike { IfOk result (λ alike. Decides alike (AreAlike log.old other.old)) }
    ensures same { log.new ≡ log.old }
    ensures other_same { other.new ≡ other.old }
{
    if agree_apart(alloc, log, other)? {
        are_groups_alike(alloc, log, other)
    } else {
        Ok(false)
    }
}

/// Whether both logs agree in all but what they say of groups.
fn agree_apart(alloc: Global, log: &Log, other: &Log) -> Result<bool, AllocError>
    ensures agree { IfOk result (λ agree. Decides agree (AgreeApart log.now other.now)) }
    ensures legal { OnOk result ((is_legal log.now ≡ true) × (is_legal other.now ≡ true)) }
{
    let (entries, others) = (log.entries(), other.entries());
    let reports = have_same_reports(alloc, entries, others)?;
    let ends = is_closed(others) == is_closed(entries) && others.len() <= entries.len();
    Ok(ends && are_maps_alike(log.map(), other.map()) && reports)
}

/// Whether each group is alike in both logs, where both maps have it.
fn are_groups_alike(alloc: Global, log: &mut Log, other: &mut Log) -> Result<bool, AllocError>
    ensures alike { IfOk result (λ alike. Decides alike ((pg : Group) → IsGroupAlike log.old other.old pg)) }
    ensures same { log.new ≡ log.old }
    ensures other_same { other.new ≡ other.old }
{
    let groups = log.map().groups()?;
    for pg in &groups {
        if !is_group_alike(alloc, log, other, pg)? {
            return Ok(false);
        }
    }
    Ok(true)
}

/// Whether the log was closed.
fn is_closed(entries: &[Arc<Entry>]) -> bool
    ensures { result ≡ is_closed (map arc_value entries.now) }
{
    entries.iter().any(|entry| is_close(entry))
}

/// Whether both maps have the same epoch, and say the same.
fn are_maps_alike(map: &OsdMap, other: &OsdMap) -> bool
    ensures { Says map.now (λ incs. Says other.now (λ others. Decides result (AreAlikeMaps incs others))) }
{
    map.epoch() == other.epoch() && map.says_the_same(other)
}

/// Whether both logs have the same infos, and the same reports of log entries, in the same order.
fn have_same_reports(
    alloc: Global,
    entries: &[Arc<Entry>],
    others: &[Arc<Entry>],
) -> Result<bool, AllocError>
    ensures { IfOk result (λ same. Decides same (HaveSameReports (map arc_value entries.now) (map arc_value others.now))) }
{
    let infos = infos_of(alloc, entries)?;
    let other_infos = infos_of(alloc, others)?;
    let reports = reports_of(alloc, entries)?;
    let other_reports = reports_of(alloc, others)?;
    Ok(
        are_same_infos(infos.as_slice(), other_infos.as_slice())
            && are_same_reports(reports.as_slice(), other_reports.as_slice()),
    )
}

/// Whether the group is alike in both logs, where both maps have it.
fn is_group_alike(
    alloc: Global,
    log: &mut Log,
    other: &mut Log,
    pg: &PgId,
) -> Result<bool, AllocError>
    ensures alike { IfOk result (λ alike. Decides alike (IsGroupAlike log.old other.old pg.now)) }
    ensures same { log.new ≡ log.old }
    ensures other_same { other.new ≡ other.old }
{
    let view = log.ask(*pg)?;
    let other_view = other.ask(*pg)?;
    match (view, other_view) {
        (Some(view), Some(other)) => are_intervals_alike(alloc, &view, &other),
        _ => Ok(true),
    }
}

/// Whether the current interval began in the same epoch by both views, and the same past ones matter.
fn are_intervals_alike(alloc: Global, view: &View, other: &View) -> Result<bool, AllocError>
    ensures { IfOk result (λ alike. Decides alike ((other.now.first ≡ view.now.first)
        × (ending_from view.now.les other.now.intervals ≡ ending_from view.now.les view.now.intervals))) }
{
    let past = ending_from(alloc, view.les, view.intervals.as_slice())?;
    let other_past = ending_from(alloc, view.les, other.intervals.as_slice())?;
    Ok(other.first == view.first && are_same_intervals(past.as_slice(), other_past.as_slice()))
}

/// The past intervals that end with this epoch or later.
fn ending_from(alloc: Global, les: Epoch, past: &[Past]) -> Result<Vec<&Past>, AllocError>
    ensures { IfOk result (λ kept. map (λ interval. interval.now) kept.items ≡ ending_from les past.now) }
{
    past.iter()
        .filter(|interval| les <= interval.last)
        .collect(alloc)
}

/// Whether both lists have the same intervals.
fn are_same_intervals(past: &[&Past], other: &[&Past]) -> bool
    ensures { Decides result (map (λ interval. interval.now) other.now ≡ map (λ interval. interval.now) past.now) }
{
    other == past
}
