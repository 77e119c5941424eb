//! The infos of a group, and whom it has heard by them.

ghost use Rattle.std.specs.Prelude.{◌≡◌, [], true, false, IfOk, OnOk, OnErr};
ghost use Rattle.pgp_map.specs.Map.{epoch as epoch_of};
ghost use Rattle.pgp_group.specs.GroupLog.{GroupLog, incs, infos};
ghost use Rattle.pgp_group.specs.Heard.{heard};
ghost use Rattle.pgp_group.specs.kept.KeptInfos.{KeepsInfos, TakesInfo};
ghost use Rattle.pgp_group.specs.Present.{IsPresent};

use super::heard::{forget_uncounted, hear, last_infos};
use super::inbox::Inbox;
use pgp_ids::{Epoch, Info};
use pgp_info::{Best, Preference};
use pgp_map::OsdMap;
use std::alloc::{AllocError, Global};

/// All infos of a group, and those by which members are heard.
///
/// Each info is judged once when it is looked at first: one that doesn't count then never counts. Those that counted are
/// kept from look to look, the last of each member with the best of them. A look puts those that came since, and drops those
/// that count no more, since a device may have gone down or an interval ended. Only where the pool prefers other copies than
/// before, since another member leads, the best is found anew.
#[derive(Drop)]
pub(crate) struct Infos {
    /// All infos, counted or not.
    inbox: Inbox<Info>,
    /// The last epoch in which the group is known to have begun to serve, by all infos.
    pub(crate) les: Epoch,
    /// Of the infos that were looked at, the last of each member that counted then, and the best of these.
    pub(crate) heard: Best<Preference>,
}

impl Infos {
    /// No infos. It takes no memory.
    pub(crate) fn new(alloc: Global) -> Self
        ensures { (g : GroupLog) → infos g ≡ [] → KeepsInfos g result }
    {
        Infos {
            inbox: Inbox::new(alloc),
            les: Epoch::new(0),
            heard: Best::new(alloc, Preference::of_pool(false, None)),
        }
    }

    /// Takes an info, which came at this epoch. After an error the infos are as before.
    pub(crate) fn push(&mut self, info: &Info, at: Epoch) -> Result<(), AllocError>
        ensures ok { OnOk result ((g after : GroupLog) → at ≡ epoch_of (incs g) → TakesInfo g info.now after
            → KeepsInfos g self.old → KeepsInfos after self.new) }
        ensures err { OnErr result ((g : GroupLog) → KeepsInfos g self.old → KeepsInfos g self.new) }
    {
        self.inbox.push(*info, at, info.stamp)?;
        self.les = self.les.max(info.history_les);
        Ok(())
    }

    /// Looks at the infos that came since the last look, and again at those that are kept, by the last map and the first
    /// epoch of the current interval. After an error the infos are as before, or all will be looked at again.
    pub(crate) fn look(
        &mut self,
        alloc: Global,
        map: &OsdMap,
        first: Epoch,
        prefer: Preference,
    ) -> Result<(), AllocError>
        ensures ok { OnOk result ((g : GroupLog) → IsPresent g map.now first → KeepsInfos g self.old
            → self.new.heard ≡ record { prefer = prefer; infos = heard g }) }
        ensures kept { (g : GroupLog) → IsPresent g map.now first → KeepsInfos g self.old → KeepsInfos g self.new }
    {
        if !self.goes_on(&prefer) {
            self.heard = self.heard_by(alloc, map, first, prefer)?;
            self.inbox.mark_seen();
            return Ok(());
        }
        forget_uncounted(&mut self.heard, map, first);
        match hear(&mut self.heard, map, first, self.inbox.unseen()) {
            Ok(()) => {
                self.inbox.mark_seen();
                Ok(())
            }
            Err(fault) => {
                self.heard = Best::new(alloc, prefer);
                self.inbox.mark_unseen();
                Err(fault)
            }
        }
    }

    /// Whether the best that is kept can go on being kept, by this preference.
    fn goes_on(&self, prefer: &Preference) -> bool
        ensures settled { result ≡ true → self.now.inbox.ahead ≡ false }
        ensures same { result ≡ true → prefer.now ≡ self.now.heard.prefer }
    {
        !self.inbox.is_ahead() && prefer == self.heard.prefer()
    }

    /// Whom the group has heard, by this preference, found anew.
    fn heard_by(
        &self,
        alloc: Global,
        map: &OsdMap,
        first: Epoch,
        prefer: Preference,
    ) -> Result<Best<Preference>, AllocError>
        ensures { IfOk result (λ best. (g : GroupLog) → IsPresent g map.now first → KeepsInfos g self.now
            → best ≡ record { prefer = prefer; infos = heard g }) }
    {
        if self.inbox.is_ahead() {
            return last_infos(alloc, map, first, self.inbox.all(), prefer);
        }
        let mut best = last_infos(alloc, map, first, self.heard.infos(), prefer)?;
        hear(&mut best, map, first, self.inbox.unseen())?;
        Ok(best)
    }
}
