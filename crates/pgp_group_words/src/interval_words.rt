//! The past intervals that block a group, in words.

ghost use Rattle.std.specs.Prelude.{◌≡◌, IfOk, OnOk};
ghost use Rattle.pgp_reasons.specs.Smallest.{holds};
ghost use Rattle.pgp_group_words.specs.IntervalWords.{down_line, down_members as members_down, fate_line, interval_lines, member_noun, read_write_line, waits_line};
ghost use Rattle.pgp_group_words.specs.Text.{Puts};

use super::names::{Leader, plural};
use super::page::{InWords, Page};
use pgp_ids::{Epoch, Member, OsdId, Seq};
use pgp_prior::members_of;
use pgp_reasons::{Blocking, IntervalNow};
use std::alloc::{AllocError, Global};

impl InWords for Blocking {
    ghost words = { interval_lines };

    #[tactic(auto, unfolding(crate::specs::IntervalWords::interval_lines))]
    fn put(&self, page: &mut Page) -> Result<(), AllocError> {
        let interval = &self.interval;
        page.put_waits(self)?;
        page.put_down_members(interval)?;
        let early = "declared lost before it began, which doesn't count for it";
        page.put_fate(&interval.lost_before, early)?;
        page.put_fate(&interval.lost, "declared lost, and no longer waited for")?;
        page.put_fate(&interval.gone, "destroyed, and can't be waited for")?;
        page.put_read_write(self.clean, interval.acting.first())
    }
}

impl Page {
    /// When the interval was, who served, and what it needs.
    #[tactic(auto, unfolding(crate::specs::IntervalWords::waits_line))]
    fn put_waits(&mut self, blocking: &Blocking) -> Result<(), AllocError>
        ensures { OnOk result (Puts self.old self.new (waits_line self.old.naming blocking.now)) }
    {
        let epochs = self.epochs_in(&blocking.interval)?;
        let acting = self.places(&blocking.interval.acting)?;
        let lacks = blocking.lacks;
        let noun = self.member_noun(lacks);
        writeln!(
            self,
            "It waits for the interval of {epochs} on {acting}, which needs {lacks} more {noun}:"
        )
    }

    /// What an interval needs this many of.
    fn member_noun(&self, count: usize) -> &'static str
        ensures { result.now ≡ member_noun self.now.naming.by_place count }
    {
        if self.naming.by_place {
            plural(count, "shard", "shards")
        } else {
            plural(count, "member", "members")
        }
    }

    /// Its members that are down.
    #[tactic(auto, unfolding(crate::specs::IntervalWords::down_line))]
    fn put_down_members(&mut self, interval: &IntervalNow) -> Result<(), AllocError>
        ensures { OnOk result (Puts self.old self.new (down_line self.old.naming interval.now)) }
    {
        let by_place = self.naming.by_place;
        let down = down_members(self.alloc(), by_place, interval)?;
        let names = self.list(down.as_slice())?;
        let are = plural(down.len(), "is", "are");
        writeln!(self, "  {names} {are} down")
    }

    /// What has become of these devices, if there are some.
    #[tactic(auto, unfolding(crate::specs::IntervalWords::fate_line))]
    fn put_fate(&mut self, osds: &Seq<OsdId>, fate: &str) -> Result<(), AllocError>
        ensures { OnOk result (Puts self.old self.new (fate_line fate.now osds.now)) }
    {
        if osds.is_empty() {
            return Ok(());
        }
        let names = self.list(osds.as_slice())?;
        let were = plural(osds.len(), "was", "were");
        writeln!(self, "  {names} {were} {fate}")
    }

    /// Why an interval may have gone read-write, whose primary is this.
    #[tactic(auto, unfolding(crate::specs::IntervalWords::read_write_line))]
    fn put_read_write(
        &mut self,
        clean: Option<Epoch>,
        primary: Option<OsdId>,
    ) -> Result<(), AllocError>
        ensures { OnOk result (Puts self.old self.new (read_write_line self.old.naming clean primary)) }
    {
        match clean {
            Some(clean) => {
                let epoch = self.epoch(clean);
                writeln!(
                    self,
                    "  it may have gone read-write: a report says that the group was clean in epoch {epoch}"
                )
            }
            None => writeln!(
                self,
                "  it may have gone read-write: the map recorded that its primary, {}, was up in it",
                Leader(primary),
            ),
        }
    }
}

/// Its acting members that are down, in the order of their places.
fn down_members(
    alloc: Global,
    by_place: bool,
    interval: &IntervalNow,
) -> Result<Vec<Member>, AllocError>
    ensures { IfOk result (λ members. members.items ≡ members_down by_place interval.now) }
{
    let mut members = Vec::new(alloc);
    for member in members_of(by_place, &interval.acting) {
        if is_one_of(interval.down.as_slice(), member.osd) {
            members.push(member)?;
        }
    }
    Ok(members)
}

/// Whether the device is one of these.
fn is_one_of(osds: &[OsdId], osd: OsdId) -> bool
    ensures { result ≡ holds osds.now osd }
{
    osds.contains(&osd)
}
