//! What the members of groups told, by the entries of a log.

ghost use Rattle.std.specs.Prelude.{◌≡◌, map, option_map, IfOk};
ghost use Rattle.std.specs.Arc.{arc_value};
ghost use Rattle.std.specs.Bool.{Decides};
ghost use Rattle.pgp_group.specs.Entries.{info_of, infos_of, report_of, reports_of};

use pgp_ids::{Entry, Info, Report};
use std::alloc::{AllocError, Global};
use std::sync::Arc;

/// The infos of the log, in its order.
pub(crate) fn infos_of(alloc: Global, entries: &[Arc<Entry>]) -> Result<Vec<&Info>, AllocError>
    ensures { IfOk result (λ infos. map (λ info. info.now) infos.items ≡ infos_of (map arc_value entries.now)) }
{
    let mut infos = Vec::new(alloc);
    for entry in entries {
        if let Some(info) = info_of(entry) {
            infos.push(info)?;
        }
    }
    Ok(infos)
}

fn info_of(entry: &Entry) -> Option<&Info>
    ensures { option_map (λ info. info.now) result ≡ info_of entry.now }
{
    match entry {
        Entry::Info(info) => Some(info),
        _ => None,
    }
}

/// The reports of log entries, in the order of the log.
pub(crate) fn reports_of(alloc: Global, entries: &[Arc<Entry>]) -> Result<Vec<&Report>, AllocError>
    ensures { IfOk result (λ reports. map (λ report. report.now) reports.items ≡ reports_of (map arc_value entries.now)) }
{
    let mut reports = Vec::new(alloc);
    for entry in entries {
        if let Some(report) = report_of(entry) {
            reports.push(report)?;
        }
    }
    Ok(reports)
}

fn report_of(entry: &Entry) -> Option<&Report>
    ensures { option_map (λ report. report.now) result ≡ report_of entry.now }
{
    match entry {
        Entry::Entries(report) => Some(report),
        _ => None,
    }
}

/// Whether both lists have the same infos.
pub(crate) fn are_same_infos(infos: &[&Info], other: &[&Info]) -> bool
    ensures { Decides result (map (λ info. info.now) other.now ≡ map (λ info. info.now) infos.now) }
{
    other == infos
}

/// Whether both lists have the same reports.
pub(crate) fn are_same_reports(reports: &[&Report], other: &[&Report]) -> bool
    ensures { Decides result (map (λ report. report.now) other.now ≡ map (λ report. report.now) reports.now) }
{
    other == reports
}
