//! The logs of a group's members, by those of their reports that count.

ghost use Rattle.std.specs.Prelude.{◌≡◌, ℕ, ◌≤◌, ◌++◌, [], Bool, true, List, All, filter, option_map, if◌then◌else◌, OnOk};
ghost use Rattle.std.specs.List.{position};
ghost use Rattle.std.specs.Option.{option_copied};
ghost use Rattle.pgp_ids.specs.Member.{is_same_member};
ghost use Rattle.pgp_ids.specs.declared.log_entry.LogEntry.{LogEntry as Write};
ghost use Rattle.pgp_ids.specs.declared.member.Member.{Member as Sender};
ghost use Rattle.pgp_ids.specs.declared.report.Report.{Report as AnyReport};
ghost use Rattle.pgp_missing.specs.Kept.{IsLogOf};
ghost use Rattle.pgp_missing.specs.Log.{by_number};
ghost use Rattle.pgp_group.specs.GroupLog.{GroupLog};
ghost use Rattle.pgp_group.specs.kept.KeptReports.{is_of, member_log, member_entries, counts_log, counts_by, AreLogsOf};
ghost use Rattle.pgp_group.specs.Present.{IsPresent};
ghost use Rattle.pgp_group.specs.declared.logs.CountedLog.{CountedLog as LogOfMember};

use super::heard::is_counted;
use pgp_ids::{Epoch, Info, Member, Report};
use pgp_map::OsdMap;
use pgp_missing::MemberLog;
use std::alloc::{AllocError, Global};

/// The log of a member, by those of its reports that count.
#[derive(Drop)]
pub(crate) struct CountedLog {
    member: Member,
    /// The epoch in which the last of these reports was sent.
    stamp: Epoch,
    log: MemberLog,
}

impl CountedLog {
    /// Adds the entries of a report that the member sent after the others.
    fn add(&mut self, report: &Report) -> Result<(), AllocError>
        ensures member { self.new.member ≡ self.old.member }
        ensures stamp { self.new.stamp ≡ report.now.stamp }
        ensures log { OnOk result ((reported : List Write) → self.old.log.entries ≡ by_number reported
            → self.new.log.entries ≡ by_number (reported ++ report.now.log)) }
    {
        self.stamp = report.stamp;
        let entries = report.log.as_slice();
        for entry in entries {
            self.log.add(entry)?;
        }
        Ok(())
    }
}

/// The logs of the members that have reports which count.
#[derive(Drop)]
pub(crate) struct Logs {
    of_members: Vec<CountedLog>,
}

impl Logs {
    /// No logs. It takes no memory.
    pub(crate) fn new(alloc: Global) -> Self
        ensures { result.of_members.items ≡ [] }
    {
        Logs {
            of_members: Vec::new(alloc),
        }
    }

    /// Drops the logs of the members whose reports count no more.
    pub(crate) fn keep_counted(&mut self, map: &OsdMap, first: Epoch)
        ensures { (g : GroupLog) → IsPresent g map.now first
            → self.new.of_members.items ≡ filter (counts_log g) self.old.of_members.items }
    {
        self.of_members
            .retain(|log| is_counted(map, first, log.member, log.stamp));
    }

    /// Adds the entries of those of these reports that count, in their order. After an error some are added.
    pub(crate) fn hear(
        &mut self,
        alloc: Global,
        map: &OsdMap,
        first: Epoch,
        told: &[Report],
    ) -> Result<(), AllocError>
        ensures logs { OnOk result ((g : GroupLog) (before : List AnyReport) → IsPresent g map.now first
            → AreLogsOf g before self.old.of_members.items → AreLogsOf g (before ++ told.now) self.new.of_members.items) }
        ensures count { OnOk result ((g : GroupLog) (at : ℕ) → IsPresent g map.now first → All (λ report. report.stamp ≤ at) told.now
            → All (λ log. counts_by g at log ≡ true) self.old.of_members.items
            → All (λ log. counts_by g at log ≡ true) self.new.of_members.items) }
    {
        for report in told {
            if is_counted(map, first, report.member, report.stamp) {
                self.add(alloc, report)?;
            }
        }
        Ok(())
    }

    /// Adds the entries of a report that counts.
    fn add(&mut self, alloc: Global, report: &Report) -> Result<(), AllocError>
        ensures logs { OnOk result ((member : Sender) (reported : List Write)
            → member_entries member self.old.of_members.items ≡ by_number reported
            → member_entries member self.new.of_members.items
            ≡ by_number (reported ++ (if is_same_member report.now.member member then report.now.log else []))) }
        ensures each { OnOk result ((test : Sender → ℕ → Bool) → test report.now.member report.now.stamp ≡ true
            → All (λ log. test log.member log.stamp ≡ true) self.old.of_members.items
            → All (λ log. test log.member log.stamp ≡ true) self.new.of_members.items) }
    {
        match self.place_of(report.member) {
            Some(place) => self.of_members[place].add(report),
            None => {
                let mut first = CountedLog {
                    member: report.member,
                    stamp: report.stamp,
                    log: MemberLog::new(alloc),
                };
                first.add(report)?;
                Ok(self.of_members.push(first)?)
            }
        }
    }

    /// Lets the log of the member with this info follow it: the info sets the bounds.
    pub(crate) fn renew(&mut self, info: &Info)
        ensures entries { (test : Sender → ℕ → Bool) (member : Sender) (reported : List Write)
            → member_entries member (filter (λ log. test log.member log.stamp) self.old.of_members.items) ≡ by_number reported
            → member_entries member (filter (λ log. test log.member log.stamp) self.new.of_members.items) ≡ by_number reported }
        ensures each { (test : Sender → ℕ → Bool) → All (λ log. test log.member log.stamp ≡ true) self.old.of_members.items
            → All (λ log. test log.member log.stamp ≡ true) self.new.of_members.items }
        ensures bounds { (log : LogOfMember) (reported : List Write) → member_entries info.now.member self.old.of_members.items ≡ by_number reported
            → member_log info.now.member self.new.of_members.items ≡ Some log → IsLogOf info.now reported log.log }
    {
        if let Some(place) = self.place_of(info.member) {
            self.of_members[place].log.renew(info);
        }
    }

    /// The log of this member, where it has reports that count.
    pub(crate) fn log_of(&self, member: Member) -> Option<&MemberLog>
        ensures { option_copied result ≡ option_map (λ log. log.log) (member_log member self.now.of_members.items) }
    {
        match self.place_of(member) {
            Some(place) => Some(&self.of_members[place].log),
            None => None,
        }
    }

    /// The place of the member's log.
    fn place_of(&self, member: Member) -> Option<usize>
        ensures { result ≡ position (is_of member) self.now.of_members.items }
    {
        self.of_members
            .as_slice()
            .iter()
            .position(|log| log.member == member)
    }
}
