ghost use Rattle.std.specs.Prelude.{◌≡◌, map as mapped, option_and_then, IfOk};
ghost use Rattle.std.specs.Arc.{arc_value};
ghost use Rattle.std.specs.Option.{option_copied};
ghost use Rattle.pgp_group.specs.GroupLog.{GroupLog};
ghost use Rattle.pgp_group.specs.Peering.{info_from};
ghost use Rattle.pgp_reasons.specs.Reasons.{AreReasons, IsViewed};

use super::blocking::{Blocking, clean_of, intervals_that_block};
use super::copies::{Copies, copies_of};
use super::fates::IntervalNow;
use super::gap::Gap;
use super::gaps::gaps;
use super::reported::infos_in;
use super::short::{Short, short_of};
use super::ways::{Ways, no_ways, ways_of};
use pgp_code::AnyCode;
use pgp_group::last_infos;
use pgp_ids::{Entry, Info, Member, PgId, Seq, View};
use pgp_info::{Best, Preference};
use pgp_map::OsdMap;
use std::alloc::{AllocError, Global};
use std::sync::Arc;

/// Why a group doesn't serve, and what would end its waiting, beside what its view says.
#[derive(Drop)]
pub struct Reasons {
    /// The last info of each member that has one which counts.
    pub heard: Seq<Info>,
    /// The past intervals that block the group, in ascending order.
    pub blocking: Seq<Blocking>,
    /// The smallest sets of devices which, once they boot, leave the group not down. None if it isn't down. Each device of a set
    /// is down and in the map, so in place of booting it may be declared lost: that comes to the same for this, but not for what
    /// it holds, as [`price_of`](crate::price_of) says.
    pub ways: Ways,
    /// The last past interval in which the group was clean, of those that it has to reckon with: the copies of its acting devices
    /// were complete.
    pub clean: Option<IntervalNow>,
    /// The copies that were heard and may be followed.
    pub copies: Copies,
    /// What its acting set lacks, and which devices that are down may be what it lacks.
    pub short: Short,
    /// The numbers of writes that the log of the best copy lacks. None if there is no best copy.
    pub gaps: Seq<Gap>,
}

/// Why the group of this view doesn't serve, and what would end its waiting, where the view is by the log of these entries and
/// the map is the last one of that log. Nothing if the map doesn't have the pool.
///
/// It reads each entry twice at most, and takes memory for the answer and for the group's infos.
pub fn reasons_of(
    alloc: Global,
    map: &OsdMap,
    entries: &[Arc<Entry>],
    pg: PgId,
    view: &View,
) -> Result<Reasons, AllocError>
    ensures { IfOk result (λ reasons. (g : GroupLog) → IsViewed (mapped arc_value entries.now) map.now pg view.now g → AreReasons g reasons) }
{
    let Some(pool) = map.pool(pg.pool) else {
        return Ok(nothing(alloc));
    };
    let code = AnyCode::of_pool(pool.kind);
    let infos = infos_in(alloc, entries, &pg)?;
    let infos = infos.as_slice();
    let past = view.intervals.as_slice();
    // Which copies the pool prefers plays no part: the view names the best.
    let by_any = Preference::of_pool(false, None);
    let heard = last_infos(alloc, map, view.first, infos, by_any)?;
    let best = info_of_best(&heard, view.best);
    let gaps = gaps(alloc, map, entries, &pg, view.first, best)?;
    let copies = copies_of(alloc, &code, best, heard.infos())?;
    let blocking = intervals_that_block(alloc, &code, map, infos, view.les, past)?;
    let ways = ways_of(alloc, &code, map, view)?;
    let clean = clean_of(alloc, &code, map, infos, view.les, past)?;
    let short = short_of(alloc, &code, map, view)?;
    Ok(Reasons {
        heard: Seq::from_vec(heard.infos().to_vec(alloc)?),
        blocking,
        ways,
        clean,
        copies,
        short,
        gaps,
    })
}

/// The member's info, if there is a member and it was heard.
fn info_of_best(heard: &Best<Preference>, member: Option<Member>) -> Option<&Info>
    ensures { option_copied result ≡ option_and_then (info_from heard.now.infos) member }
{
    match member {
        Some(member) => heard.info_of(&member),
        None => None,
    }
}

/// No reasons.
fn nothing(alloc: Global) -> Reasons {
    Reasons {
        heard: Seq::new(alloc),
        blocking: Seq::new(alloc),
        ways: no_ways(alloc),
        clean: None,
        copies: Copies {
            members: Seq::new(alloc),
            lacks: 0,
        },
        short: Short {
            lacks: 0,
            fallen: Seq::new(alloc),
        },
        gaps: Seq::new(alloc),
    }
}
