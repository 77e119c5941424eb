//! The reports that come later, as far as they make earlier ones needless.

ghost use Rattle.std.specs.Prelude.{◌≡◌, [], ◌∷◌, List, OnOk, Some, not, option_and_then};
ghost use Rattle.std.specs.List.{list_any};
ghost use Rattle.pgp_ids.specs.declared.entry.Entry.{Entry as AnyEntry};
ghost use Rattle.pgp_ids.specs.declared.entry.Entry.TheVariants as entry;
ghost use Rattle.pgp_group.specs.GroupLog.{GroupLog, group_in};
ghost use Rattle.pgp_group.specs.Heard.{les, is_counted};
ghost use Rattle.pgp_group.specs.Present.{IsPresent};
ghost use Rattle.pgp_reasons.specs.Reported.{infos_in};
ghost use Rattle.pgp_compact.specs.Compacted.{reports_in, may_be_heard, tells_last_start, tells_last_clean, needs_info, needs_report, replaces_number};
ghost use Rattle.pgp_compact.specs.kept.Later.{AreLastCleans, IsLater, sender_of, opening_at, write_number};
ghost use Rattle.pgp_compact.specs.kept.Standing.{standing_at, opening_in};

use super::course::Standing;
use super::greatest::Greatest;
use pgp_group::is_counted;
use pgp_ids::{Epoch, Info, LogEntry, OsdId, PgId, Report};
use pgp_map::OsdMap;
use std::alloc::{AllocError, Global};

/// A member of a group.
#[derive(Clone, Copy, PartialEq, Eq, Hash)]
pub(crate) struct Sender {
    pub(crate) pg: PgId,
    pub(crate) osd: OsdId,
    pub(crate) slot: u8,
}

/// An interval of a group, by its first epoch.
#[derive(Clone, Copy, PartialEq, Eq, Hash)]
pub(crate) struct Opening {
    pub(crate) pg: PgId,
    pub(crate) first: u32,
}

/// The log entries of one number of a member of a group.
#[derive(Clone, Copy, PartialEq, Eq, Hash)]
pub(crate) struct Number {
    pub(crate) pg: PgId,
    pub(crate) osd: OsdId,
    pub(crate) slot: u8,
    pub(crate) v: u32,
}

/// What was sent later: of each member the greatest stamp of its infos, of each group the greatest history_les, of each interval
/// the last clean epoch, where one can matter, and of each number of each member the greatest stamp of a report with an entry of that
/// number. Beside it stand the last clean epochs by the whole log.
#[derive(Drop)]
pub(crate) struct Later {
    senders: Greatest<Sender>,
    starts: Greatest<PgId>,
    cleans: Greatest<Opening>,
    all_cleans: Greatest<Opening>,
    numbers: Greatest<Number>,
}

impl Later {
    /// Nothing comes later. These are the last clean epochs by the whole log.
    pub(crate) fn new(alloc: Global, all_cleans: Greatest<Opening>) -> Self
        ensures { (log : List AnyEntry) → AreLastCleans log log all_cleans.table → IsLater log [] result }
    {
        Later {
            senders: Greatest::new(alloc),
            starts: Greatest::new(alloc),
            cleans: Greatest::new(alloc),
            all_cleans,
            numbers: Greatest::new(alloc),
        }
    }

    /// Whether the info stays, by what the whole log says of its group.
    pub(crate) fn needs_info(&self, map: &OsdMap, standing: &Standing, info: &Info) -> bool
        ensures { (log later : List AnyEntry) (g : GroupLog) → IsLater log later self.now → group_in log info.now.pg ≡ Some g
            → IsPresent g map.now standing.now.first → standing.now ≡ standing_at info.now.last_epoch_clean g
            → result ≡ needs_info g (infos_in info.now.pg later) info.now }
    {
        self.may_be_heard(map, standing, info)
            || self.tells_last_start(standing, info)
            || self.tells_last_clean(standing, info)
    }

    /// Whether the info counts and none that comes later replaces it.
    fn may_be_heard(&self, map: &OsdMap, standing: &Standing, info: &Info) -> bool
        ensures { (log later : List AnyEntry) (g : GroupLog) → IsLater log later self.now → IsPresent g map.now standing.now.first
            → result ≡ may_be_heard g (infos_in info.now.pg later) info.now }
    {
        let sender = sender_of(info);
        is_counted(map, standing.first, info.member, info.stamp)
            && !self.senders.reaches(&sender, info.stamp.number())
    }

    /// Whether it is the last info that says when the group last began to serve.
    fn tells_last_start(&self, standing: &Standing, info: &Info) -> bool
        ensures { (log later : List AnyEntry) (g : GroupLog) → IsLater log later self.now → standing.now.les ≡ les g
            → result ≡ tells_last_start g (infos_in info.now.pg later) info.now }
    {
        let start = info.history_les;
        start.number() > 0
            && standing.les <= start
            && !self.starts.reaches(&info.pg, start.number())
    }

    /// Whether it tells of the last clean epoch in one of the group's intervals in which one can matter, and no later info of the same.
    fn tells_last_clean(&self, standing: &Standing, info: &Info) -> bool
        ensures { (log later : List AnyEntry) (g : GroupLog) → IsLater log later self.now → group_in log info.now.pg ≡ Some g
            → standing.now.opening ≡ opening_in g info.now.last_epoch_clean
            → result ≡ tells_last_clean g (infos_in info.now.pg later) info.now }
    {
        let Some(first) = standing.opening else {
            return false;
        };
        let interval = opening_at(info.pg, first);
        let clean = info.last_epoch_clean.number();
        !self.all_cleans.exceeds(&interval, clean) && !self.cleans.reaches(&interval, clean)
    }

    /// Takes note of an info that comes before all of these; `opening` is the first epoch of the interval of its
    /// last_epoch_clean, by the whole log, where a clean epoch of it can matter.
    pub(crate) fn note_info(
        &mut self,
        info: &Info,
        opening: Option<Epoch>,
    ) -> Result<(), AllocError>
        ensures { OnOk result ((log later : List AnyEntry) → IsLater log later self.old
            → opening ≡ option_and_then (λ g. opening_in g info.now.last_epoch_clean) (group_in log info.now.pg)
            → IsLater log (entry.Info info.now ∷ later) self.new) }
    {
        self.senders.note(sender_of(info), info.stamp.number())?;
        self.starts.note(info.pg, info.history_les.number())?;
        note_clean(&mut self.cleans, info, opening)
    }

    /// Whether the report of log entries stays, where the group's current interval began in the epoch `first`.
    pub(crate) fn needs_report(&self, map: &OsdMap, first: Epoch, report: &Report) -> bool
        ensures { (log later : List AnyEntry) (g : GroupLog) → IsLater log later self.now → IsPresent g map.now first
            → result ≡ needs_report g (reports_in report.now.pg later) report.now }
    {
        is_counted(map, first, report.member, report.stamp) && self.has_last_number(report)
    }

    /// Whether an entry of the report has a number that no later report replaces.
    fn has_last_number(&self, report: &Report) -> bool
        ensures { (log later : List AnyEntry) → IsLater log later self.now → result
            ≡ list_any (λ entry. not (list_any (replaces_number report.now entry.version.v) (reports_in report.now.pg later))) report.now.log }
    {
        for entry in report.log.as_slice() {
            if !self.replaces(report, entry) {
                return true;
            }
        }
        false
    }

    /// Whether a later report replaces what this one says by the entry.
    fn replaces(&self, report: &Report, entry: &LogEntry) -> bool
        ensures { (log later : List AnyEntry) → IsLater log later self.now
            → result ≡ list_any (replaces_number report.now entry.now.version.v) (reports_in report.now.pg later) }
    {
        let number = number_of(report, entry);
        self.numbers.reaches(&number, report.stamp.number())
    }

    /// Takes note of a report of log entries that comes before all of these.
    pub(crate) fn note_report(&mut self, report: &Report) -> Result<(), AllocError>
        ensures { OnOk result ((log later : List AnyEntry) → IsLater log later self.old
            → IsLater log (entry.Entries report.now ∷ later) self.new) }
    {
        for entry in report.log.as_slice() {
            self.numbers
                .note(number_of(report, entry), report.stamp.number())?;
        }
        Ok(())
    }
}

/// Takes note of the info's last_epoch_clean, which is of the group's interval that opened at `opening`, if of any in which it can
/// matter.
pub(crate) fn note_clean(
    cleans: &mut Greatest<Opening>,
    info: &Info,
    opening: Option<Epoch>,
) -> Result<(), AllocError>
    ensures { OnOk result ((log later : List AnyEntry) → AreLastCleans log later cleans.old.table
        → opening ≡ option_and_then (λ g. opening_in g info.now.last_epoch_clean) (group_in log info.now.pg)
        → AreLastCleans log (entry.Info info.now ∷ later) cleans.new.table) }
{
    match opening {
        Some(first) => cleans.note(opening_at(info.pg, first), info.last_epoch_clean.number()),
        None => Ok(()),
    }
}

/// Who sent the info.
fn sender_of(info: &Info) -> Sender
    ensures { result ≡ sender_of info.now }
{
    Sender {
        pg: info.pg,
        osd: info.member.osd,
        slot: info.member.slot,
    }
}

/// The interval of the group that opened in this epoch.
fn opening_at(pg: PgId, first: Epoch) -> Opening
    ensures { result ≡ opening_at pg first }
{
    Opening {
        pg,
        first: first.number(),
    }
}

/// The number of the entry, of the member that sent the report.
fn number_of(report: &Report, entry: &LogEntry) -> Number
    ensures { result ≡ write_number report.now entry.now.version.v }
{
    Number {
        pg: report.pg,
        osd: report.member.osd,
        slot: report.member.slot,
        v: entry.version.v,
    }
}
