//! A placement group, as the log so far tells of it.

ghost use Rattle.std.specs.Prelude.{◌≡◌, ◌≤◌, ◌++◌, ◌||◌, ℕ, [], ◌∷◌, List, Some, None, true, false, not, nat_eq, nat_lt, length, IfOk, OnOk, OnErr};
ghost use Rattle.std.specs.List.{list_any};
ghost use Rattle.std.specs.Option.{option_map_or};
ghost use Rattle.pgp_code.specs.AnyCode.{enough_of, is_by_place};
ghost use Rattle.pgp_code.specs.declared.any.AnyCode.{AnyCode as Code};
ghost use Rattle.pgp_interval.specs.History.{History};
ghost use Rattle.pgp_interval.specs.IntervalsOf.{IsIntervalsOf};
ghost use Rattle.pgp_interval.specs.ReadWrite.{acting_slots};
ghost use Rattle.pgp_ids.specs.declared.entry.Entry.{Entry as AnyEntry};
ghost use Rattle.pgp_ids.specs.declared.entry.Entry.TheVariants as entry;
ghost use Rattle.pgp_ids.specs.declared.incremental.Incremental.{Incremental};
ghost use Rattle.pgp_ids.specs.declared.pg_id.PgId.{PgId as Id};
ghost use Rattle.pgp_ids.specs.Osds.{osd_count};
ghost use Rattle.pgp_map.specs.Held.{HasGroup};
ghost use Rattle.pgp_map.specs.Map.{epoch as epoch_of};
ghost use Rattle.pgp_map.specs.MapFault.{map_fault, then_with};
ghost use Rattle.pgp_map.specs.MapOf.{IsMapOf};
ghost use Rattle.pgp_map.specs.Pools.{has_group, is_same_group};
ghost use Rattle.pgp_group.specs.Entries.{inc_of, incs_of};
ghost use Rattle.pgp_group.specs.GroupHistory.{EpochsAscend, made_at};
ghost use Rattle.pgp_group.specs.GroupLog.{GroupLog, cleans, group_in};
ghost use Rattle.pgp_group.specs.GroupOf.{Keeps, IsGroupOf, IsSilent, IsThere, TellsNothingAhead};
ghost use Rattle.pgp_group.specs.Heard.{les};
ghost use Rattle.pgp_group.specs.kept.KeptPrior.{IsReckoned, KeepsPrior};
ghost use Rattle.pgp_group.specs.kept.Parts.{AreHeard, AreLogsHeard, IsBestCopy};
ghost use Rattle.pgp_group.specs.Peering.{prior as prior_of};
ghost use Rattle.pgp_group.specs.Present.{IsPresent};
ghost use Rattle.pgp_group.specs.Reaching.{reaching};
ghost use Rattle.pgp_group.specs.Touched.{names};
ghost use Rattle.pgp_group.specs.Verdict.{is_waiting, verdict as verdict_of};
ghost use Rattle.pgp_group.specs.View.{view_of, scratch};

mod best_copy;
mod next;

use self::best_copy::BestCopy;
use super::heard::is_waiting;
use super::infos::Infos;
use super::kept_prior::KeptPrior;
use super::named_devices::NamedDevices;
use super::reports::Reports;
pub use next::primary_facts;
use pgp_code::{AnyCode, Recoverable};
use pgp_ids::{Entry, Epoch, Info, Membership, OsdId, PgId, Report, Seq, Verdict, View};
use pgp_info::Preference;
use pgp_interval::{Intervals, acting_slots};
use pgp_map::OsdMap;
use pgp_prior::members_of;
use pgp_sets::up_acting;
use std::alloc::{AllocError, Global};

/// A placement group: its intervals so far, and all that its members reported.
///
/// It keeps no map. The last map is lent where it is needed, since devices change in it without a word to the group. What each map
/// is compared with stands first, side by side in memory.
pub struct Group {
    alloc: Global,
    pg: PgId,
    intervals: Intervals<AnyCode>,
    /// The devices that stand in up or acting of a past interval, or sent a report.
    named: NamedDevices,
    /// All infos of the group, counted or not, and whom it has heard.
    infos: Infos,
    /// All reports of log entries of the group, counted or not, and the logs of its members.
    reports: Reports,
    /// Whom it has to hear, as of the last view.
    reckoned: KeptPrior,
}

// Written out, so that a crate which lets one go has nothing to prove of what lies within.
impl Drop for Group {
    fn drop(self) {
        let Group {
            alloc: _,
            pg: _,
            intervals: _,
            named: _,
            infos: _,
            reports: _,
            reckoned: _,
        } = self;
    }
}

impl Group {
    /// The group at the epoch that made its pool, of which nothing was reported yet. It takes no memory.
    pub fn begin(alloc: Global, map: &OsdMap, pg: PgId) -> Self
        requires { HasGroup map.now pg }
        ensures { (log : List AnyEntry) → EpochsAscend (incs_of log) → IsMapOf (incs_of log) map.now
            → has_group (incs_of log) pg ≡ true → made_at (incs_of log) pg.pool ≡ epoch_of (incs_of log)
            → IsSilent log pg → IsGroupOf log pg result }
    {
        // By a reference: the toolchain takes `pg` itself for moved by the first call, although it is copied.
        let id = &pg;
        let members = up_acting(map, *id);
        Group::begin_members(alloc, map, pg, members)
    }

    /// Takes the next map, which has the group. `before` is the one that it was until now. After an error the group stands for the same log. It is
    /// for a caller that keeps no raw sets; a shard calls `absorb_members`.
    pub fn absorb_map(&mut self, before: &OsdMap, after: &OsdMap) -> Result<(), AllocError>
        requires { IsThere self.old after.now }
        ensures ok { OnOk result ((log : List AnyEntry) (pg : Id) (inc : Incremental)
            → IsGroupOf log pg self.old → map_fault (incs_of log) inc ≡ None
            → IsMapOf (incs_of log) before.now → IsMapOf (then_with (incs_of log) inc) after.now
            → IsGroupOf (log ++ entry.Inc inc ∷ []) pg self.new) }
        ensures err { OnErr result ((log : List AnyEntry) (pg : Id) → IsGroupOf log pg self.old → IsGroupOf log pg self.new) }
    {
        let members = up_acting(after, self.pg);
        let facts = primary_facts(before, self.primary());
        self.absorb_members(after, members, facts)
    }

    /// Takes a report, or another entry that brings no map: of those that aren't reports of this group nothing is kept.
    /// After an error the group stands for the same log.
    pub fn absorb_report(&mut self, entry: &Entry) -> Result<(), AllocError>
        ensures ok { OnOk result ((log : List AnyEntry) (pg : Id) → inc_of entry.now ≡ None → TellsNothingAhead log pg entry.now
            → IsGroupOf log pg self.old → IsGroupOf (log ++ entry.now ∷ []) pg self.new) }
        ensures err { OnErr result ((log : List AnyEntry) (pg : Id) → IsGroupOf log pg self.old → IsGroupOf log pg self.new) }
    {
        match entry {
            Entry::Info(info) => self.keep_info(info),
            Entry::Entries(report) => self.keep_report(report),
            Entry::Inc(_) => Ok(()),
            Entry::Close => Ok(()),
        }
    }

    #[tactic(auto, using(crate::proofs::GroupLemmas::same_after_error))]
    fn keep_info(&mut self, info: &Info) -> Result<(), AllocError>
        ensures ok { OnOk result ((log : List AnyEntry) (pg : Id)
            → (is_same_group info.now.pg pg ≡ true → info.now.last_epoch_clean ≤ epoch_of (incs_of log))
            → IsGroupOf log pg self.old → IsGroupOf (log ++ entry.Info info.now ∷ []) pg self.new) }
        ensures err { OnErr result ((log : List AnyEntry) (pg : Id) → IsGroupOf log pg self.old → IsGroupOf log pg self.new) }
    {
        if info.pg == self.pg {
            self.named.make_room_for(info.member.osd)?;
            self.infos.push(info, self.intervals.last())?;
            self.named.add(info.member.osd);
            self.take_clean(info.last_epoch_clean);
        }
        Ok(())
    }

    /// Marks the interval of this epoch, current or past, as one in which the group may have gone read-write: the group was
    /// clean then. Where the interval is past, the prior set takes the mark too, or will take the interval with its mark. It
    /// takes no memory. An epoch that is still to come, which no log has, marks nothing.
    fn take_clean(&mut self, epoch: Epoch)
        ensures intervals { (h : History Code) (told : List ℕ) → epoch ≤ self.old.intervals.last
            → IsIntervalsOf enough_of is_by_place h told self.old.intervals
            → IsIntervalsOf enough_of is_by_place h (told ++ epoch ∷ []) self.new.intervals }
        ensures prior { (g after : GroupLog) → epoch ≤ self.old.intervals.last
            → IsIntervalsOf enough_of is_by_place g.history (cleans g) self.old.intervals
            → after.history ≡ g.history → cleans after ≡ cleans g ++ epoch ∷ [] → les g ≤ les after
            → KeepsPrior g self.old.reckoned → KeepsPrior after self.new.reckoned }
        ensures pg { self.new.pg ≡ self.old.pg }
        ensures infos { self.new.infos ≡ self.old.infos }
        ensures reports { self.new.reports ≡ self.old.reports }
        ensures named { self.new.named ≡ self.old.named }
    {
        if epoch <= self.intervals.last() {
            if let Some(place) = self.intervals.clean(epoch) {
                self.reckoned.index.raise(place);
            }
        }
    }

    #[tactic(auto, using(crate::proofs::GroupLemmas::same_after_error))]
    fn keep_report(&mut self, report: &Report) -> Result<(), AllocError>
        ensures ok { OnOk result ((log : List AnyEntry) (pg : Id)
            → IsGroupOf log pg self.old → IsGroupOf (log ++ entry.Entries report.now ∷ []) pg self.new) }
        ensures err { OnErr result ((log : List AnyEntry) (pg : Id) → IsGroupOf log pg self.old → IsGroupOf log pg self.new) }
    {
        if report.pg == self.pg {
            self.named.make_room_for(report.member.osd)?;
            self.reports
                .push(self.alloc, report, self.intervals.last())?;
            self.named.add(report.member.osd);
        }
        Ok(())
    }

    /// All that the log so far says of the group. `map` is the last map, and `count` the number of the log's entries. It
    /// looks at each info and each report once, and then keeps the last info and the log of each member that has some which
    /// count. Of the past intervals it asks the code about those alone that came since the last view, or that have a device
    /// of which the map says something else than then. After an error the group stands for the same log.
    pub fn view(&mut self, map: &OsdMap, count: usize) -> Result<View, AllocError>
        ensures view { IfOk result (λ view. (log : List AnyEntry) (pg : Id) → IsGroupOf log pg self.old
            → IsMapOf (incs_of log) map.now → length log ≡ count → scratch log pg ≡ Some view) }
        ensures same { (log : List AnyEntry) (pg : Id) → IsGroupOf log pg self.old → IsMapOf (incs_of log) map.now
            → IsGroupOf log pg self.new }
    {
        let (first, current) = self.intervals.current();
        self.hear_more(map, first, &current)?;
        self.reckoned.look(map, &self.intervals, self.infos.les)?;
        self.view_of_heard(map, count, first, current)
    }

    /// Whether the device stands in up or acting of a past interval of the group, or sent a report of it, counted or not. It
    /// takes no memory. It is the same by later maps, as long as the group lies as before.
    pub fn names(&self, osd: OsdId) -> bool
        ensures later { (log : List AnyEntry) (pg : Id) (epoch : ℕ) → IsGroupOf log pg (reaching epoch self.now)
            → result ≡ option_map_or (names osd) (group_in log pg) false }
        ensures now { (log : List AnyEntry) (pg : Id) → IsGroupOf log pg self.now
            → result ≡ option_map_or (names osd) (group_in log pg) false }
    {
        self.named.has(osd)
    }

    /// The devices of which [`names`](Self::names) says so.
    pub fn named(&self) -> &[OsdId]
        ensures later { (log : List AnyEntry) (pg : Id) (epoch : ℕ) → IsGroupOf log pg (reaching epoch self.now)
            → (osd : ℕ) → list_any (nat_eq osd) result.now ≡ option_map_or (names osd) (group_in log pg) false }
        ensures now { (log : List AnyEntry) (pg : Id) → IsGroupOf log pg self.now
            → (osd : ℕ) → list_any (nat_eq osd) result.now ≡ option_map_or (names osd) (group_in log pg) false }
    {
        self.named.as_slice()
    }

    /// Hears the infos and reports that came since, and no more those that don't count any more. The best member's log follows
    /// its info.
    fn hear_more(
        &mut self,
        map: &OsdMap,
        first: Epoch,
        current: &Membership,
    ) -> Result<(), AllocError>
        ensures heard { OnOk result ((g : GroupLog) → Keeps g self.old → IsPresent g map.now first
            → current.now ≡ g.history.current → AreHeard g self.new.infos.heard) }
        ensures logs { OnOk result ((g : GroupLog) → Keeps g self.old → IsPresent g map.now first
            → current.now ≡ g.history.current → AreLogsHeard g self.new.reports.logs.of_members.items) }
        ensures kept { (g : GroupLog) → Keeps g self.old → IsPresent g map.now first → Keeps g self.new }
    {
        let by_place = self.intervals.code().by_place();
        let leader = members_of(by_place, &current.acting).next();
        let prefer = Preference::of_pool(by_place, leader);
        self.infos.look(self.alloc, map, first, prefer)?;
        self.reports.look(self.alloc, map, first)?;
        if let Some(best) = self.infos.heard.best() {
            self.reports.logs.renew(best);
        }
        Ok(())
    }

    /// The view of the group, which has heard all that count and has reckoned whom it has to hear.
    fn view_of_heard(
        &self,
        map: &OsdMap,
        count: usize,
        first: Epoch,
        current: Membership,
    ) -> Result<View, AllocError>
        ensures { IfOk result (λ view. (g : GroupLog) → Keeps g self.now → IsPresent g map.now first
            → current ≡ g.history.current → AreHeard g self.now.infos.heard
            → AreLogsHeard g self.now.reports.logs.of_members.items → IsReckoned g self.now.reckoned.index
            → length g.log ≡ count → view_of g ≡ view) }
    {
        let heard = &self.infos.heard;
        let copy = self.best_copy(&current, heard)?;
        let intervals = self.intervals.past(self.alloc)?;
        let prior = self.reckoned.index.prior()?;
        let waiting = is_waiting(prior.probe.as_slice(), heard);
        let verdict = self.verdict(map, first, &current, &copy, prior.down, waiting);
        Ok(View {
            count,
            epoch: map.epoch(),
            up: current.up,
            up_primary: current.up_primary,
            acting: current.acting,
            acting_primary: current.acting_primary,
            first,
            intervals: Seq::from_vec(intervals),
            les: self.infos.les,
            probe: prior.probe,
            blocked_by: prior.blocked_by,
            verdict,
            best: copy.member,
            missing: copy.states,
        })
    }

    /// The verdict of the first cause that holds.
    fn verdict(
        &self,
        map: &OsdMap,
        first: Epoch,
        current: &Membership,
        copy: &BestCopy,
        down: bool,
        waiting: bool,
    ) -> Verdict
        ensures { (g : GroupLog) → Keeps g self.now → IsPresent g map.now first → current.now ≡ g.history.current
            → IsBestCopy g copy.now → (prior_of g).down ≡ down → is_waiting g ≡ waiting → result ≡ verdict_of g }
    {
        let Some(primary) = current.acting_primary else {
            return Verdict::NoPrimary;
        };
        if down {
            Verdict::Down
        } else if waiting {
            Verdict::Waiting
        } else if copy.member.is_none() {
            Verdict::Incomplete
        } else if is_short(self.intervals.code(), current) {
            Verdict::Short
        } else if !copy.whole {
            Verdict::NeedLog
        } else if map.up_thru(primary) < first {
            Verdict::NeedUpThru
        } else {
            Verdict::Serve
        }
    }
}

/// Acting has fewer than min_size members, or their slots aren't enough.
fn is_short(code: &AnyCode, members: &Membership) -> bool
    ensures { result ≡ (nat_lt (osd_count members.now.acting) members.now.min_size
        || not (enough_of code.now (acting_slots (is_by_place code.now) members.now.acting))) }
{
    members.acting.osd_count() < usize::from(members.min_size)
        || !code.enough(acting_slots(code.by_place(), &members.acting))
}
