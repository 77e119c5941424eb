//! The reports of log entries of a group, and the logs of its members by them.

ghost use Rattle.std.specs.Prelude.{◌≡◌, [], IfOk, OnOk, OnErr};
ghost use Rattle.pgp_map.specs.Map.{epoch as epoch_of};
ghost use Rattle.pgp_group.specs.GroupLog.{GroupLog, incs, reports};
ghost use Rattle.pgp_group.specs.kept.KeptReports.{KeepsReports, IsReportedBy, AreCounted, AreLogsOf};
ghost use Rattle.pgp_group.specs.Present.{IsPresent};

use super::inbox::Inbox;
use super::logs::Logs;
use pgp_ids::{Epoch, LogEntry, Report, Seq};
use pgp_map::OsdMap;
use std::alloc::{AllocError, Global};

/// All reports of log entries of a group, and the logs of the members that have reports which count.
///
/// Each report is judged once when it is looked at first: one that doesn't count then never counts. Of one member all
/// reports that counted still count, or none does: its device went down, or the interval ended. So a log is judged by the
/// last report that went into it, and dropped whole.
#[derive(Drop)]
pub(crate) struct Reports {
    /// All reports, counted or not.
    inbox: Inbox<Report>,
    /// By the reports that were looked at, the logs of the members.
    pub(crate) logs: Logs,
}

impl Reports {
    /// No reports. It takes no memory.
    pub(crate) fn new(alloc: Global) -> Self
        ensures { (g : GroupLog) → reports g ≡ [] → KeepsReports g result }
    {
        Reports {
            inbox: Inbox::new(alloc),
            logs: Logs::new(alloc),
        }
    }

    /// Takes a report, which came at this epoch. After an error the reports are as before.
    pub(crate) fn push(
        &mut self,
        alloc: Global,
        report: &Report,
        at: Epoch,
    ) -> Result<(), AllocError>
        ensures ok { OnOk result ((g after : GroupLog) → at ≡ epoch_of (incs g) → IsReportedBy g report.now after
            → KeepsReports g self.old → KeepsReports after self.new) }
        ensures err { OnErr result ((g : GroupLog) → KeepsReports g self.old → KeepsReports g self.new) }
    {
        let copy = copy_of(alloc, report)?;
        self.inbox.push(copy, at, report.stamp)
    }

    /// Looks at the reports that came since the last look, and again at the logs that are kept, by the last map and the first
    /// epoch of the current interval. Then the logs are those of all reports that count. After an error all reports will be
    /// looked at again.
    pub(crate) fn look(
        &mut self,
        alloc: Global,
        map: &OsdMap,
        first: Epoch,
    ) -> Result<(), AllocError>
        ensures ok { OnOk result ((g : GroupLog) → IsPresent g map.now first → KeepsReports g self.old
            → AreLogsOf g (reports g) self.new.logs.of_members.items) }
        ensures kept { (g : GroupLog) → IsPresent g map.now first → KeepsReports g self.old → KeepsReports g self.new }
    {
        self.keep_counted(alloc, map, first);
        match self.logs.hear(alloc, map, first, self.inbox.unseen()) {
            Ok(()) => {
                self.inbox.mark_seen();
                Ok(())
            }
            Err(fault) => {
                self.forget(alloc);
                Err(fault)
            }
        }
    }

    /// Drops the logs that count no more, or all where a report came ahead of its epoch.
    fn keep_counted(&mut self, alloc: Global, map: &OsdMap, first: Epoch)
        ensures { (g : GroupLog) → IsPresent g map.now first → KeepsReports g self.old → AreCounted g self.new }
    {
        if self.inbox.is_ahead() {
            self.forget(alloc);
        } else {
            self.logs.keep_counted(map, first);
        }
    }

    /// Forgets what was looked at.
    fn forget(&mut self, alloc: Global)
        ensures inbox { self.new.inbox ≡ record self.old.inbox { seen = 0 } }
        ensures logs { self.new.logs.of_members.items ≡ [] }
    {
        self.logs = Logs::new(alloc);
        self.inbox.mark_unseen();
    }
}

/// A copy of the report.
fn copy_of(alloc: Global, report: &Report) -> Result<Report, AllocError>
    ensures { IfOk result (λ copy. copy ≡ report.now) }
{
    let log = copy_of_log(alloc, report.log.as_slice())?;
    Ok(Report {
        pg: report.pg,
        member: report.member,
        stamp: report.stamp,
        log: Seq::from_vec(log),
    })
}

fn copy_of_log(alloc: Global, log: &[LogEntry]) -> Result<Vec<LogEntry>, AllocError>
    ensures { IfOk result (λ copy. copy.items ≡ log.now) }
{
    let mut copy = Vec::new(alloc);
    for entry in log {
        copy.push(LogEntry {
            version: entry.version,
            change: entry.change,
            object: entry.object.clone()?,
        })?;
    }
    Ok(copy)
}
