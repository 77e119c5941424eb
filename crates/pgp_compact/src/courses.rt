//! The groups that have reports.

ghost use Rattle.std.specs.Prelude.{◌++◌, [], ◌∷◌, List, map, IfOk, OnOk, IfSome, IfNone};
ghost use Rattle.std.specs.Arc.{arc_value};
ghost use Rattle.pgp_ids.specs.declared.entry.Entry.{Entry as AnyEntry};
ghost use Rattle.pgp_ids.specs.declared.incremental.Incremental.{Incremental as AnyIncremental};
ghost use Rattle.pgp_map.specs.MapFault.{then_with};
ghost use Rattle.pgp_group.specs.GroupOf.{IsSilent};
ghost use Rattle.pgp_log.specs.MapBefore.{IsMapBefore};
ghost use Rattle.pgp_compact.specs.kept.Course.{IsNext};
ghost use Rattle.pgp_compact.specs.kept.Courses.{AreCourses, AreSomeCourses, CanAllGoOn, EachIsCourse, IsCourseIn, IsReportOf, IsSameButCourse};

use super::course::Course;
use pgp_ids::{Entry, Epoch, Incremental, PgId};
use pgp_log::{MapBefore, moves_none};
use pgp_map::OsdMap;
use std::alloc::{AllocError, Global};
use std::collections::HashMap;
use std::sync::Arc;

/// The groups of which a log has reports, as one map follows another.
#[derive(Drop)]
pub(crate) struct Courses {
    /// At which place of the list each group stands.
    places: HashMap<PgId, usize>,
    all: Vec<Course>,
}

impl Courses {
    /// The groups of which these entries have reports, before any map.
    pub(crate) fn of(alloc: Global, entries: &[Arc<Entry>]) -> Result<Self, AllocError>
        ensures { IfOk result (AreCourses [] (map arc_value entries.now)) }
    {
        let mut courses = Courses {
            places: HashMap::new(alloc),
            all: Vec::new(alloc),
        };
        for entry in entries {
            courses.note(alloc, entry)?;
        }
        Ok(courses)
    }

    /// Takes note of the next entry. After an `Err` the value must not be used again.
    fn note(&mut self, alloc: Global, entry: &Entry) -> Result<(), AllocError>
        requires { AreSomeCourses self.old }
        ensures { OnOk result ((entries : List AnyEntry) → AreCourses [] entries self.old
            → AreCourses [] (entries ++ entry.now ∷ []) self.new) }
    {
        match entry {
            Entry::Info(info) => self.note_report(alloc, info.pg, info.history_les),
            Entry::Entries(report) => self.note_report(alloc, report.pg, Epoch::new(0)),
            Entry::Inc(_) | Entry::Close => Ok(()),
        }
    }

    /// Takes note of a report of the group, which says that it began to serve in this epoch, 0 for none.
    fn note_report(&mut self, alloc: Global, pg: PgId, les: Epoch) -> Result<(), AllocError>
        requires { AreSomeCourses self.old }
        ensures { OnOk result ((entries : List AnyEntry) (new : AnyEntry) → IsReportOf pg les new → AreCourses [] entries self.old
            → AreCourses [] (entries ++ new ∷ []) self.new) }
    {
        match self.places.get(&pg).copied() {
            Some(place) => {
                let course = &mut self.all[place];
                // The group is known to have begun to serve in this epoch.
                course.les = course.les.max(les);
                Ok(())
            }
            None => {
                let place = self.all.len();
                self.all.push(Course::new(alloc, pg, les))?;
                self.places.insert(pg, place)?;
                Ok(())
            }
        }
    }

    /// Takes the next map, which this incremental makes. One that moves no group is passed to none of them. After an `Err` the
    /// value must not be used again.
    pub(crate) fn absorb(
        &mut self,
        before: &MapBefore,
        after: &OsdMap,
        inc: &Incremental,
    ) -> Result<(), AllocError>
        requires { CanAllGoOn self.old.all.items inc.now after.now }
        ensures { OnOk result ((incs : List AnyIncremental) (entries : List AnyEntry) → IsNext incs inc.now after.now
            → IsMapBefore incs inc.now before.now → AreCourses incs entries self.old → AreCourses (then_with incs inc.now) entries self.new) }
    {
        if moves_none(inc) {
            return Ok(());
        }
        absorb(self.all.as_mut_slice(), before, after, inc)
    }

    /// The group, if these entries have a report of it.
    pub(crate) fn get(&self, pg: &PgId) -> Option<&Course>
        ensures some { IfSome result (λ course. (incs : List AnyIncremental) (entries : List AnyEntry) → AreCourses incs entries self.now
            → IsCourseIn incs entries pg.now course.now) }
        ensures none { IfNone result ((incs : List AnyIncremental) (entries : List AnyEntry) → AreCourses incs entries self.now
            → IsSilent entries pg.now) }
    {
        let place = self.places.get(pg).copied()?;
        self.all.get(place)
    }
}

/// Lets each of the groups take the next map, which this incremental makes.
fn absorb(
    groups: &mut [Course],
    before: &MapBefore,
    after: &OsdMap,
    inc: &Incremental,
) -> Result<(), AllocError>
    requires { CanAllGoOn groups.old inc.now after.now }
    ensures each { OnOk result ((incs : List AnyIncremental) → IsNext incs inc.now after.now → IsMapBefore incs inc.now before.now
        → EachIsCourse incs groups.old → EachIsCourse (then_with incs inc.now) groups.new) }
    ensures same { OnOk result (IsSameButCourse groups.old groups.new) }
{
    for course in groups.iter_mut() {
        course.absorb(before, after, inc)?;
    }
    Ok(())
}
