//! A group in words.

ghost use Rattle.std.specs.Prelude.{◌≡◌, IfOk, OnOk, string_bytes};
ghost use Rattle.pgp_group_words.specs.Names.{cluster_epoch};
ghost use Rattle.pgp_group_words.specs.Text.{Puts};
ghost use Rattle.pgp_group_words.specs.Words.{heading, info_words, advice_lines, les_part, list_lines, place_lines, words_of};

use super::advice::Advice;
use super::explanation::Explanation;
use super::names::Leader;
use super::offset::EpochOffset;
use super::page::{InWords, Page};
use pgp_ids::{Epoch, Info, Seq};
use std::alloc::{AllocError, Global};

impl Advice {
    /// What there is to say of a group, in lines that each end in a line feed.
    pub fn words(&self, alloc: Global, offset: EpochOffset) -> Result<String, AllocError>
        ensures { IfOk result (λ text. string_bytes text ≡ words_of self.now offset) }
    {
        let mut page = Page::new(alloc, self.explanation.naming(offset));
        page.put_advice(self)?;
        Ok(page.text)
    }
}

impl Page {
    /// What there is to say of a group.
    #[tactic(auto, unfolding(crate::specs::Words::advice_lines))]
    fn put_advice(&mut self, advice: &Advice) -> Result<(), AllocError>
        ensures { OnOk result (Puts self.old self.new (advice_lines self.old.naming advice.now)) }
    {
        let explanation = &advice.explanation;
        self.put_heading(explanation)?;
        self.put_place(explanation)?;
        self.put_list(
            "\nHeard:",
            &explanation.reasons.heard,
            "\nHeard:\n  nobody\n",
        )?;
        let unheard = explanation.unheard(self.alloc())?;
        self.put_list("Not heard:", &unheard, "")?;
        self.put_each("\n", explanation.reasons.blocking.as_slice())?;
        self.put_ways(advice)?;
        self.put_resorts(&advice.last_resort)
    }

    /// The group, as Ceph writes it, with its number in hexadecimal, its verdict, and the sentence on it.
    #[tactic(auto, unfolding(crate::specs::Words::heading))]
    fn put_heading(&mut self, explanation: &Explanation) -> Result<(), AllocError>
        ensures { OnOk result (Puts self.old self.new (heading self.old.naming explanation.now)) }
    {
        let epoch = self.naming.offset.cluster_epoch(explanation.view.epoch);
        let verdict = explanation.view.verdict.name();
        let pool = explanation.pg.pool.number();
        let pg = explanation.pg.pg;
        writeln!(self.text, "group {pool}.{pg:x} at epoch {epoch}: {verdict}")?;
        self.put_sentence(explanation)?;
        self.push_str("\n")
    }

    /// Where the group lies, since when, and when it last served.
    #[tactic(auto, unfolding(crate::specs::Words::place_lines, crate::specs::Words::acting_line))]
    fn put_place(&mut self, explanation: &Explanation) -> Result<(), AllocError>
        ensures { OnOk result (Puts self.old self.new (place_lines self.old.naming explanation.now)) }
    {
        let acting = self.places(&explanation.view.acting)?;
        let first = self.epoch(explanation.view.first);
        writeln!(
            self,
            "\nacting {acting}, led by {}, since epoch {first} (of size {}, at least {})",
            Leader(explanation.view.acting_primary),
            explanation.pool.size,
            explanation.pool.min_size,
        )?;
        let up = self.places(&explanation.view.up)?;
        writeln!(self, "up     {up}")?;
        self.put_les(
            "It is not known to have served.\n",
            "It is known to have last begun to serve in epoch ",
            explanation.view.les,
            ".\n",
        )
    }

    /// Puts the epoch in which a group last served, with this before and that behind it. Epoch 0 stands for never, and `never` is put.
    #[tactic(auto, unfolding(crate::specs::Words::les_part))]
    fn put_les(
        &mut self,
        never: &str,
        before: &str,
        les: Epoch,
        after: &str,
    ) -> Result<(), AllocError>
        ensures { OnOk result (Puts self.old self.new
            (les_part never.now before.now (cluster_epoch self.old.naming.offset les) after.now)) }
    {
        match self.epoch(les) {
            0 => self.push_str(never),
            les => write!(self, "{before}{les}{after}"),
        }
    }

    /// Puts a heading and a line for each of these; where there are none, that alone.
    #[tactic(auto, unfolding(crate::specs::Words::list_lines))]
    fn put_list<T: InWords>(
        &mut self,
        heading: &str,
        items: &Seq<T>,
        none: &str,
    ) -> Result<(), AllocError>
        ensures { OnOk result (Puts self.old self.new
            (list_lines heading.now (T.words self.old.naming) none.now items.now)) }
    {
        if items.is_empty() {
            return self.push_str(none);
        }
        self.push_str(heading)?;
        self.put_each("\n  ", items.as_slice())?;
        self.push_str("\n")
    }
}

/// Who sent it, when, how far the copy goes, when the sender last served, and when it knows that the group last did.
impl InWords for Info {
    ghost words = { info_words };

    #[tactic(auto, unfolding(crate::specs::Words::info_words, crate::specs::Words::sender_part))]
    fn put(&self, page: &mut Page) -> Result<(), AllocError> {
        let member = page.name(&self.member)?;
        let stamp = page.epoch(self.stamp);
        let epoch = page.epoch(self.last_update.epoch);
        let complete = if self.complete {
            "complete"
        } else {
            "not complete"
        };
        write!(
            page,
            "{member}  sent in epoch {stamp}, {complete}, last write {epoch}'{}",
            self.last_update.v,
        )?;
        page.put_les(
            ", has not served",
            ", began to serve in epoch ",
            self.les,
            "",
        )?;
        page.put_les("", ", knows of epoch ", self.history_les, "")
    }
}
