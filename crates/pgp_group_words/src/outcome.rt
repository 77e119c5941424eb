ghost use Rattle.std.specs.Prelude.{◌≡◌, IfOk, OnOk, string_bytes};
ghost use Rattle.pgp_group_words.specs.Text.{Puts};
ghost use Rattle.pgp_group_words.specs.WaysWords.{later_part, says_then};

use super::explanation::Explanation;
use super::offset::EpochOffset;
use super::page::Page;
use pgp_ids::{OsdId, Seq, Verdict};
use pgp_reasons::Price;
use std::alloc::{AllocError, Global};

/// A way to end that a group is down, what the group is then, and what that costs.
#[derive(Drop)]
pub struct Outcome {
    /// The devices that boot.
    pub starts: Seq<OsdId>,
    /// The devices that are declared lost.
    pub losses: Seq<OsdId>,
    /// What the group is then, if the log has room for the entry that tells of it.
    pub after: Option<Then>,
    pub price: Price,
}

/// What a group is after a way.
#[derive(Drop)]
pub struct Then {
    pub verdict: Verdict,
    /// The sentence on it.
    pub says: String,
}

impl Then {
    /// What there is to say of a group after a way.
    #[tactic(auto, unfolding(crate::specs::WaysWords::says_then))]
    pub fn of(alloc: Global, group: &Explanation, offset: EpochOffset) -> Result<Self, AllocError>
        ensures verdict { IfOk result (λ then. then.verdict ≡ group.now.view.verdict) }
        ensures says { IfOk result (λ then. string_bytes then.says ≡ says_then group.now offset) }
    {
        let mut page = Page::new(alloc, group.naming(offset));
        page.put_sentence(group)?;
        page.put_later(group)?;
        Ok(Then {
            verdict: group.view.verdict,
            says: page.text,
        })
    }
}

impl Page {
    /// That its acting set has too few members besides, or they hold too few shards, where it has yet to hear some.
    fn put_later(&mut self, explanation: &Explanation) -> Result<(), AllocError>
        ensures { OnOk result (Puts self.old self.new (later_part explanation.now)) }
    {
        let acting = &explanation.view.acting;
        let has_too_few = acting.osd_count() < usize::from(explanation.pool.min_size)
            || explanation.reasons.short.lacks > 0;
        if explanation.view.verdict == Verdict::Waiting && has_too_few {
            self.push_str(" ")?;
            self.put_few(explanation)
        } else {
            Ok(())
        }
    }
}
