//! What the views of groups tell of them together.

ghost use Rattle.std.specs.Prelude.{◌≡◌, ℕ, List, [], ◌∷◌, ◌++◌, ◌&&◌, ◌||◌, not, nat_eq, nat_lt, OnOk, IfOk};
ghost use Rattle.std.specs.Ordering.{is_lt, nat_cmp};
ghost use Rattle.pgp_ids.specs.declared.entry.Entry.{Entry};
ghost use Rattle.pgp_lists.specs.Ordered.{IsAscending};
ghost use Rattle.pgp_group.specs.GroupLog.{GroupLog};
ghost use Rattle.pgp_group.specs.Heard.{has_member, heard};
ghost use Rattle.pgp_group.specs.View.{view_of};
ghost use Rattle.pgp_reasons.specs.Reasons.{IsViewed};
ghost use Rattle.pgp_reasons.specs.Smallest.{holds};
ghost use Rattle.pgp_whole.specs.kept.Hearing.{AreStamps};
ghost use Rattle.pgp_whole.specs.Summary.{blockers, freers, has_verdict, unheard};
ghost use Rattle.pgp_whole.specs.kept.Sums.{AreSums};

use super::group_counts::GroupCounts;
use super::stamps::{Sender, Stamps};
use pgp_group::is_counted;
use pgp_ids::{Member, OsdId, PgId, Seq, Verdict, View};
use pgp_lists::insert_in_order;
use pgp_map::OsdMap;
use pgp_reasons::unblocks;
use std::alloc::{AllocError, Global};

/// What the views of groups tell of them together.
#[derive(Drop)]
pub(crate) struct GroupSums {
    /// Of each group.
    pub verdicts: Seq<Verdict>,
    /// How many groups each device blocks.
    pub blocks: GroupCounts,
    /// How many groups each device frees alone.
    pub frees: GroupCounts,
    /// How many groups have yet to hear from each device.
    pub awaited: GroupCounts,
}

impl GroupSums {
    /// Of no group.
    pub fn new(alloc: Global) -> Result<Self, AllocError>
        ensures { IfOk result (AreSums []) }
    {
        Ok(GroupSums {
            verdicts: Seq::new(alloc),
            blocks: GroupCounts::new(alloc)?,
            frees: GroupCounts::new(alloc)?,
            awaited: GroupCounts::new(alloc)?,
        })
    }

    /// Takes in the group of a log, of which this is the view, by the last map and the stamps of the log's infos.
    pub fn add(
        &mut self,
        alloc: Global,
        map: &OsdMap,
        pg: &PgId,
        view: &View,
        stamps: &Stamps,
    ) -> Result<(), AllocError>
        ensures { OnOk result ((groups : List GroupLog) (log : List Entry) (g : GroupLog) → AreSums groups self.old
            → IsViewed log map.now pg.now view.now g → AreStamps log stamps.now → AreSums (groups ++ g ∷ []) self.new) }
    {
        let freers = freers_of(alloc, map, pg, view)?;
        let unheard = unheard_of(alloc, map, pg, view, stamps)?;
        self.verdicts.push(view.verdict)?;
        self.blocks.add(blockers_of(view));
        self.frees.add(freers.as_slice());
        self.awaited.add(unheard.as_slice());
        Ok(())
    }
}

/// Whether the group has this verdict.
fn has_verdict(view: &View, verdict: Verdict) -> bool
    ensures { (g : GroupLog) → view.now ≡ view_of g → result ≡ has_verdict verdict g }
{
    view.verdict == verdict
}

/// The devices that keep the group down.
fn blockers_of(view: &View) -> &[OsdId]
    ensures { (g : GroupLog) → view.now ≡ view_of g → result.now ≡ blockers g }
{
    if has_verdict(view, Verdict::Down) {
        view.blocked_by.as_slice()
    } else {
        &[]
    }
}

/// Those of them each of which alone ends that, once it boots.
fn freers_of(alloc: Global, map: &OsdMap, pg: &PgId, view: &View) -> Result<Vec<OsdId>, AllocError>
    ensures { IfOk result (λ osds. (log : List Entry) (g : GroupLog) → IsViewed log map.now pg.now view.now g → osds.items ≡ freers g) }
{
    let mut osds = Vec::new(alloc);
    for osd in blockers_of(view) {
        if unblocks(map, *pg, view, &[*osd], &[]) {
            osds.push(*osd)?;
        }
    }
    Ok(osds)
}

/// The devices from which the group has yet to hear, in ascending order, each once, where it waits for that.
fn unheard_of(
    alloc: Global,
    map: &OsdMap,
    pg: &PgId,
    view: &View,
    stamps: &Stamps,
) -> Result<Vec<OsdId>, AllocError>
    ensures ascends { IfOk result (λ osds. IsAscending nat_lt osds.items) }
    ensures holds { IfOk result (λ osds. (log : List Entry) (g : GroupLog) (osd : ℕ) → IsViewed log map.now pg.now view.now g → AreStamps log stamps.now
        → holds osds.items osd ≡ holds (unheard g) osd) }
{
    let mut osds = Vec::new(alloc);
    if !has_verdict(view, Verdict::Waiting) {
        return Ok(osds);
    }
    for member in view.probe.as_slice() {
        put_unheard(&mut osds, map, pg, view, member, stamps)?;
    }
    Ok(osds)
}

/// Puts the member's device among these, where the group hasn't heard the member.
fn put_unheard(
    osds: &mut Vec<OsdId>,
    map: &OsdMap,
    pg: &PgId,
    view: &View,
    member: &Member,
    stamps: &Stamps,
) -> Result<(), AllocError>
    requires { IsAscending (λ a b. is_lt (nat_cmp a b)) osds.old.items }
    ensures ascends { OnOk result (IsAscending (λ a b. is_lt (nat_cmp a b)) osds.new.items) }
    ensures holds { OnOk result ((log : List Entry) (g : GroupLog) (osd : ℕ) → IsViewed log map.now pg.now view.now g → AreStamps log stamps.now
        → holds osds.new.items osd ≡ (holds osds.old.items osd || (not (has_member member.now (heard g)) && nat_eq osd member.now.osd))) }
{
    if has_heard(map, pg, view, member, stamps) {
        return Ok(());
    }
    insert_in_order(osds, member.osd)
}

/// Whether the group has heard the member.
fn has_heard(map: &OsdMap, pg: &PgId, view: &View, member: &Member, stamps: &Stamps) -> bool
    ensures { (log : List Entry) (g : GroupLog) → IsViewed log map.now pg.now view.now g → AreStamps log stamps.now → result ≡ has_member member.now (heard g) }
{
    match stamps.get(&Sender::new(pg, member)) {
        Some(stamp) => is_counted(map, view.first, *member, *stamp),
        None => false,
    }
}
