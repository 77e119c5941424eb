//! What a whole log says of its groups.

ghost use Rattle.std.specs.Prelude.{◌≡◌, ◌≤◌, ◌++◌, [], ◌∷◌, List, true, map, option_map, IfOk, OnOk};
ghost use Rattle.std.specs.List.{Contains};
ghost use Rattle.std.specs.Arc.{arc_value};
ghost use Rattle.pgp_ids.specs.declared.entry.Entry.{Entry as AnyEntry};
ghost use Rattle.pgp_ids.specs.declared.entry.Entry.TheVariants as entry;
ghost use Rattle.pgp_map.specs.Map.{epoch};
ghost use Rattle.pgp_group.specs.Entries.{incs_of};
ghost use Rattle.pgp_group.specs.GroupLog.{group_in};
ghost use Rattle.pgp_log.specs.Log.{is_legal};
ghost use Rattle.pgp_compact.specs.kept.Courses.{HasReport};
ghost use Rattle.pgp_compact.specs.kept.Later.{AreLastCleans};
ghost use Rattle.pgp_compact.specs.kept.Standing.{standing_at};
ghost use Rattle.pgp_compact.specs.kept.Whole.{CanRead, HasReadFront, IsJudged, IsReadWhole};

use super::course::Standing;
use super::courses::Courses;
use super::greatest::Greatest;
use super::later::{Later, Opening, note_clean};
use pgp_ids::{Entry, Epoch, Info, PgId, Report};
use pgp_log::MapBefore;
use pgp_map::OsdMap;
use std::alloc::{AllocError, Global};
use std::sync::Arc;

/// The last map of a whole log, and the groups of which it has reports.
#[derive(Drop)]
pub(crate) struct Whole {
    map: OsdMap,
    courses: Courses,
}

impl Whole {
    /// Reads all of this log. It goes over the log twice: once for the groups that have reports, and once for where these lie.
    pub(crate) fn of(alloc: Global, entries: &[Arc<Entry>]) -> Result<Self, AllocError>
        requires { is_legal (map arc_value entries.now) ≡ true }
        ensures { IfOk result (λ whole. IsReadWhole (map arc_value entries.now) whole) }
    {
        let mut whole = Whole {
            map: OsdMap::empty(alloc),
            courses: Courses::of(alloc, entries)?,
        };
        for entry in entries {
            whole.read(alloc, entry)?;
        }
        Ok(whole)
    }

    /// Reads the next entry of the log, for its map. After an `Err` the value must not be used again.
    fn read(&mut self, alloc: Global, entry: &Entry) -> Result<(), AllocError>
        requires { CanRead self.old entry.now }
        ensures { OnOk result ((log front : List AnyEntry) → is_legal (front ++ entry.now ∷ []) ≡ true → HasReadFront log front self.old
            → HasReadFront log (front ++ entry.now ∷ []) self.new) }
    {
        let Entry::Inc(inc) = entry else {
            return Ok(());
        };
        let before = MapBefore::of(alloc, &self.map, inc)?;
        self.map.apply(inc)?;
        self.courses.absorb(&before, &self.map, inc)
    }

    /// The last clean epoch in each interval of each group in which clean epochs can matter, by the infos of the log. It goes over the
    /// log once.
    pub(crate) fn last_cleans(
        &self,
        alloc: Global,
        entries: &[Arc<Entry>],
    ) -> Result<Greatest<Opening>, AllocError>
        requires { IsReadWhole (map arc_value entries.now) self.now }
        ensures { IfOk result (λ cleans. AreLastCleans (map arc_value entries.now) (map arc_value entries.now) cleans.table) }
    {
        let mut cleans = Greatest::new(alloc);
        for step in 0..entries.len() {
            let entry = &entries[entries.len() - 1 - step];
            self.note_clean(&mut cleans, entry)?;
        }
        Ok(cleans)
    }

    /// Notes the clean epoch of which the entry of the log tells, if it can matter, beside those of the entries after it.
    fn note_clean(&self, cleans: &mut Greatest<Opening>, entry: &Entry) -> Result<(), AllocError>
        ensures { OnOk result ((log later : List AnyEntry) → IsReadWhole log self.now → Contains log entry.now
            → AreLastCleans log later cleans.old.table → AreLastCleans log (entry.now ∷ later) cleans.new.table) }
    {
        let Entry::Info(info) = entry else {
            return Ok(());
        };
        let Some(standing) = self.standing(&info.pg, info.last_epoch_clean) else {
            return Ok(());
        };
        note_clean(cleans, info, standing.opening)
    }

    /// Whether the entry of the log stays, where `later` has taken note of those after it. `later` then takes note
    /// of this entry too.
    pub(crate) fn needs(&self, later: &mut Later, entry: &Entry) -> Result<bool, AllocError>
        ensures { IfOk result (IsJudged self.now later.old later.new entry.now) }
    {
        match entry {
            Entry::Info(info) => self.needs_info(later, info),
            Entry::Entries(report) => self.needs_report(later, report),
            Entry::Inc(_) | Entry::Close => Ok(true),
        }
    }

    fn needs_info(&self, later: &mut Later, info: &Info) -> Result<bool, AllocError>
        ensures { IfOk result (IsJudged self.now later.old later.new (entry.Info info.now)) }
    {
        match self.standing(&info.pg, info.last_epoch_clean) {
            Some(standing) => {
                let needed = later.needs_info(&self.map, &standing, info);
                later.note_info(info, standing.opening)?;
                Ok(needed)
            }
            None => {
                later.note_info(info, None)?;
                Ok(true)
            }
        }
    }

    fn needs_report(&self, later: &mut Later, report: &Report) -> Result<bool, AllocError>
        ensures { IfOk result (IsJudged self.now later.old later.new (entry.Entries report.now)) }
    {
        match self.standing(&report.pg, Epoch::new(0)) {
            Some(standing) => {
                let needed = later.needs_report(&self.map, standing.first, report);
                later.note_report(report)?;
                Ok(needed)
            }
            None => {
                later.note_report(report)?;
                Ok(true)
            }
        }
    }

    /// What the log says of the group, of which it has a report, and which of its intervals holds the epoch `clean`, which the log
    /// has reached.
    fn standing(&self, pg: &PgId, clean: Epoch) -> Option<Standing>
        ensures { (log : List AnyEntry) → IsReadWhole log self.now → HasReport log pg.now → clean ≤ epoch (incs_of log)
            → result ≡ option_map (standing_at clean) (group_in log pg.now) }
    {
        let course = self.courses.get(pg)?;
        course.standing(clean)
    }
}
