//! What a group waits for, in one sentence.

ghost use Rattle.std.specs.Prelude.{◌≡◌, map, IfOk, OnOk, string_bytes};
ghost use Rattle.std.specs.Option.{option_copied};
ghost use Rattle.std.specs.List.{list_any};
ghost use Rattle.pgp_group_words.specs.Sentence.{behind_part, fallen_part, few, informed_beside_complete as informed_beside, naming_of, none_recent, on_down, on_incomplete, on_log, on_no_primary, on_serving, on_short, on_up_thru, on_waiting, osds_part, sentence_of, starters_part, unread_part};
ghost use Rattle.pgp_group_words.specs.Text.{Puts};

use super::explanation::Explanation;
use super::lags::laggards;
use super::names::{Leader, plural};
use super::offset::EpochOffset;
use super::page::Page;
use pgp_ids::{Epoch, Info, Member, OsdId, PeerMissing, Verdict};
use pgp_reasons::{Gap, Reasons};
use std::alloc::{AllocError, Global};

impl Explanation {
    /// The sentence on the verdict of the group.
    pub(crate) fn sentence(&self, alloc: Global, offset: EpochOffset) -> Result<String, AllocError>
        ensures { IfOk result (λ text. string_bytes text ≡ sentence_of (naming_of self.now offset) self.now) }
    {
        let mut page = Page::new(alloc, self.naming(offset));
        page.put_sentence(self)?;
        Ok(page.text)
    }
}

impl Page {
    /// The sentence on the verdict of a group.
    #[tactic(auto, unfolding(crate::specs::Sentence::sentence_of))]
    pub fn put_sentence(&mut self, explanation: &Explanation) -> Result<(), AllocError>
        ensures { OnOk result (Puts self.old self.new (sentence_of self.old.naming explanation.now)) }
    {
        let view = &explanation.view;
        let reasons = &explanation.reasons;
        match view.verdict {
            Verdict::NoPrimary => self.put_no_primary(reasons),
            Verdict::Down => self.put_down(explanation),
            Verdict::Waiting => self.put_waiting(explanation),
            Verdict::Incomplete => self.put_incomplete(reasons),
            Verdict::Short => self.put_short(explanation),
            Verdict::NeedLog => self.put_need_log(view.best, reasons.gaps.as_slice()),
            Verdict::NeedUpThru => self.put_need_up_thru(view.acting_primary, view.first),
            Verdict::Serve => self.put_serve(explanation),
        }
    }

    /// Writes may be on devices that are down alone.
    #[tactic(auto, unfolding(crate::specs::Sentence::on_down))]
    fn put_down(&mut self, explanation: &Explanation) -> Result<(), AllocError>
        ensures { OnOk result (Puts self.old self.new (on_down self.old.naming explanation.now)) }
    {
        let blocked_by = explanation.view.blocked_by.as_slice();
        let down = self.list(blocked_by)?;
        let are = plural(blocked_by.len(), "is", "are");
        let epochs = self.epochs(explanation.reasons.blocking.as_slice())?;
        write!(
            self,
            "It waits for {down}, which {are} down: writes may have been taken in {epochs}, and too few of the devices that took them are up."
        )
    }

    /// Members that are up haven't told of their copies.
    #[tactic(auto, unfolding(crate::specs::Sentence::on_waiting))]
    fn put_waiting(&mut self, explanation: &Explanation) -> Result<(), AllocError>
        ensures { OnOk result (Puts self.old self.new (on_waiting self.old.naming explanation.now)) }
    {
        let unheard = explanation.unheard(self.alloc())?;
        let members = self.list(unheard.as_slice())?;
        write!(self, "It has yet to hear from {members}.")
    }

    /// Nobody leads it.
    #[tactic(auto, unfolding(crate::specs::Sentence::on_no_primary))]
    fn put_no_primary(&mut self, reasons: &Reasons) -> Result<(), AllocError>
        ensures { OnOk result (Puts self.old self.new (on_no_primary self.old.naming reasons.now)) }
    {
        self.push_str("No device of its acting set is up, so nobody leads it.")?;
        self.put_starters(reasons)
    }

    /// No copy may be followed.
    #[tactic(auto, unfolding(crate::specs::Sentence::on_incomplete))]
    fn put_incomplete(&mut self, reasons: &Reasons) -> Result<(), AllocError>
        ensures { OnOk result (Puts self.old self.new (on_incomplete self.old.naming reasons.now)) }
    {
        self.put_none_recent(reasons.heard.as_slice())?;
        self.put_starters(reasons)
    }

    /// No copy that was heard of is complete and recent enough: complete ones are older than what some info knows of.
    #[tactic(auto, unfolding(crate::specs::Sentence::not_recent))]
    fn put_none_recent(&mut self, heard: &[Info]) -> Result<(), AllocError>
        ensures { OnOk result (Puts self.old self.new (none_recent self.old.naming (informed_beside heard.now))) }
    {
        let Some(info) = informed_beside_complete(heard) else {
            return self.push_str("No complete copy was heard of.");
        };
        let member = self.name(&info.member)?;
        let epoch = self.epoch(info.history_les);
        write!(
            self,
            "No copy that was heard of is complete and recent enough: {member} knows that the group served in epoch {epoch}, and no complete copy has served since."
        )
    }

    /// Who might be started: who is down of those that were complete when the group was last clean, or else of those that served
    /// it last.
    #[tactic(auto, unfolding(crate::specs::Sentence::held_part))]
    fn put_starters(&mut self, reasons: &Reasons) -> Result<(), AllocError>
        ensures { OnOk result (Puts self.old self.new (starters_part self.old.naming reasons.now)) }
    {
        match &reasons.clean {
            Some(clean) if !clean.down.is_empty() => {
                let epochs = self.epochs_in(clean)?;
                let down = self.list(clean.down.as_slice())?;
                let are = plural(clean.down.len(), "is", "are");
                write!(
                    self,
                    " Of those that were complete in {epochs}, when it was last clean, {down} {are} down."
                )
            }
            _ => self.put_fallen(reasons.short.fallen.as_slice()),
        }
    }

    /// Who of those that served the group last is down.
    fn put_fallen(&mut self, osds: &[OsdId]) -> Result<(), AllocError>
        ensures { OnOk result (Puts self.old self.new (fallen_part osds.now)) }
    {
        let are_down = plural(osds.len(), " is down.", " are down.");
        self.put_osds(" Of those that served it last, ", osds, are_down)
    }

    /// Puts the devices, if there are some, with this before and that behind them.
    pub fn put_osds(&mut self, before: &str, osds: &[OsdId], after: &str) -> Result<(), AllocError>
        ensures { OnOk result (Puts self.old self.new (osds_part before.now osds.now after.now)) }
    {
        if osds.is_empty() {
            return Ok(());
        }
        let names = self.list(osds)?;
        write!(self, "{before}{names}{after}")
    }

    /// The acting set has too few members, or they hold too few shards.
    #[tactic(auto, unfolding(crate::specs::Sentence::on_short))]
    fn put_short(&mut self, explanation: &Explanation) -> Result<(), AllocError>
        ensures { OnOk result (Puts self.old self.new (on_short explanation.now)) }
    {
        self.put_few(explanation)?;
        self.put_fallen(explanation.reasons.short.fallen.as_slice())
    }

    /// What the acting set lacks: members, or else shards.
    #[tactic(auto, unfolding(crate::specs::Sentence::few_members, crate::specs::Sentence::few_shards))]
    pub fn put_few(&mut self, explanation: &Explanation) -> Result<(), AllocError>
        ensures { OnOk result (Puts self.old self.new (few explanation.now)) }
    {
        let members = explanation.view.acting.osd_count();
        let least = usize::from(explanation.pool.min_size);
        if members >= least {
            let lacks = explanation.reasons.short.lacks;
            let shards = plural(lacks, "shard", "shards");
            return write!(
                self,
                "The members of its acting set hold too few shards to give objects back: it needs {lacks} more {shards}."
            );
        }
        let more = least - members;
        let noun = plural(members, "member", "members");
        let devices = plural(more, "device", "devices");
        write!(
            self,
            "Its acting set has {members} {noun}, and needs at least {least}: it needs {more} more {devices}."
        )
    }

    /// Entries of the log by which objects are brought up to date haven't been reported, or it is wrong all the same.
    #[tactic(auto, unfolding(crate::specs::Sentence::log_words))]
    fn put_need_log(&mut self, best: Option<Member>, gaps: &[Gap]) -> Result<(), AllocError>
        ensures { OnOk result (Puts self.old self.new (on_log self.old.naming best gaps.now)) }
    {
        let Some(best) = best else {
            return self.push_str("The log of its best copy is not whole.");
        };
        let best = self.name(&best)?;
        if gaps.is_empty() {
            return write!(
                self,
                "The log of {best}, which has the best copy, is not in order."
            );
        }
        let lacked = self.writes(gaps)?;
        write!(
            self,
            "The log of {best}, which has the best copy, lacks the {lacked}."
        )
    }

    /// The map doesn't say yet that writes may be taken in this interval.
    #[tactic(auto, unfolding(crate::specs::Sentence::on_up_thru))]
    fn put_need_up_thru(&mut self, primary: Option<OsdId>, first: Epoch) -> Result<(), AllocError>
        ensures { OnOk result (Puts self.old self.new (on_up_thru self.old.naming primary first)) }
    {
        let leader = Leader(primary);
        let first = self.epoch(first);
        write!(
            self,
            "The map has yet to record that {leader}, which leads it, is up in this interval: up_thru {first} or later."
        )
    }

    /// It serves, and members that lag behind catch up.
    #[tactic(auto, unfolding(crate::specs::Sentence::on_serving))]
    fn put_serve(&mut self, explanation: &Explanation) -> Result<(), AllocError>
        ensures { OnOk result (Puts self.old self.new (on_serving self.old.naming explanation.now)) }
    {
        let laggards = laggards(self.alloc(), explanation.view.missing.as_slice())?;
        let leader = Leader(explanation.view.acting_primary);
        write!(self, "It serves, led by {leader}.")?;
        self.put_unread(explanation.reasons.copies.lacks)?;
        self.put_behind(laggards.as_slice())
    }

    /// How many complete copies more it needs for all that was written to be read.
    #[tactic(auto, unfolding(crate::specs::Sentence::unread_part))]
    fn put_unread(&mut self, lacks: usize) -> Result<(), AllocError>
        ensures { OnOk result (Puts self.old self.new (unread_part lacks)) }
    {
        if lacks == 0 {
            return Ok(());
        }
        write!(
            self,
            " Too few complete copies were heard to read all that was written: it needs {lacks} more."
        )
    }

    /// Who lacks something of the best copy.
    #[tactic(auto, unfolding(crate::specs::Sentence::behind_part))]
    fn put_behind(&mut self, laggards: &[&PeerMissing]) -> Result<(), AllocError>
        ensures { OnOk result (Puts self.old self.new (behind_part self.old.naming (map (λ peer. peer.now) laggards.now))) }
    {
        if laggards.is_empty() {
            return Ok(());
        }
        let names = self.list(laggards)?;
        write!(self, " {names}.")
    }
}

/// The info that knows of the last epoch in which the group served, where one of the infos is of a complete copy; of those that know
/// of the same the last.
fn informed_beside_complete(heard: &[Info]) -> Option<&Info>
    ensures { option_copied result ≡ informed_beside heard.now }
{
    if !has_complete(heard) {
        return None;
    }
    let (first, others) = heard.split_first()?;
    let mut informed = first;
    for info in others {
        if informed.history_les <= info.history_les {
            informed = info;
        }
    }
    Some(informed)
}

/// Whether one of the infos is of a complete copy.
fn has_complete(heard: &[Info]) -> bool
    ensures { result ≡ list_any (λ info. info.complete) heard.now }
{
    heard.iter().any(|info| info.complete)
}
