ghost use Rattle.std.specs.Prelude.{◌≡◌, is_some, find, OnOk, OnErr};
ghost use Rattle.std.specs.Option.{option_copied};
ghost use Rattle.pgp_ids.specs.Member.{is_same_member};
ghost use Rattle.pgp_info.specs.Best.{best_info};
ghost use Rattle.pgp_info.specs.Heard.{heard_nothing, without, with_info, has_member};

use super::lead::Lead;
use super::prefer::Prefer;
use pgp_ids::{Info, Member};
use std::alloc::{AllocError, Global};
use std::marker::Model;

/// The last info of each member, and the best of them by the preference `P`.
///
/// The best one is kept, so that asking for it is free.
pub struct Best<P: Prefer> {
    prefer: P,
    /// No two are of one member.
    infos: Vec<Info>,
    lead: Lead,
}

// Written out, so that a crate which lets one go has nothing to prove of what lies within.
impl<P: Prefer + Drop> Drop for Best<P> {
    fn drop(self) {
        let Best {
            prefer: _,
            infos: _,
            lead: _,
        } = self;
    }
}

impl<P: Prefer> Model for Best<P> {
    ghost use Rattle.pgp_info.specs.Heard.{Heard};
    ghost use Rattle.pgp_info.specs.Lead.{AreLed};

    ghost Value = { Heard P };

    ghost view = { λ b. record {
      prefer = b.prefer;
      infos = b.infos.items;
    } };

    ghost invariant = { λ b. AreLed (P.better b.prefer) b.infos.items b.lead };
}

impl<P: Prefer> Best<P> {
    /// Before any info.
    pub fn new(alloc: Global, prefer: P) -> Self
        ensures { result ≡ heard_nothing prefer }
    {
        Best {
            prefer,
            infos: Vec::new(alloc),
            lead: Lead::of_nobody(),
        }
    }

    /// Takes an info, in place of the one that its member had sent before. After an error all is as before.
    pub fn put(&mut self, info: Info) -> Result<(), AllocError>
        ensures ok { OnOk result (self.new ≡ record self.old { infos = with_info info self.old.infos }) }
        ensures err { OnErr result (self.new ≡ self.old) }
    {
        self.infos.reserve(1)?;
        self.infos.retain(|other| other.member != info.member);
        let others = self
            .lead
            .left_by(&self.prefer, &info.member, self.infos.as_slice());
        self.lead = others.joined_by(&self.prefer, &info);
        self.infos.push_reserved(info);
        Ok(())
    }

    /// Which copies are preferred.
    pub fn prefer(&self) -> &P
        ensures { result.now ≡ self.now.prefer }
    {
        &self.prefer
    }

    /// The infos that are kept, the last of each member.
    pub fn infos(&self) -> &[Info]
        ensures { result.now ≡ self.now.infos }
    {
        self.infos.as_slice()
    }

    /// The info of this member, where it was heard.
    pub fn info_of(&self, member: &Member) -> Option<&Info>
        ensures value { option_copied result ≡ find (λ info. is_same_member info.member member.now) self.now.infos }
        ensures heard { is_some result ≡ has_member member.now self.now.infos }
    {
        self.infos.iter().find(|info| info.member == *member)
    }

    /// Forgets the member's info, where there is one.
    pub fn drop_member(&mut self, member: &Member)
        ensures { self.new ≡ record self.old { infos = without member.now self.old.infos } }
    {
        self.infos.retain(|info| info.member != *member);
        self.lead = self
            .lead
            .left_by(&self.prefer, member, self.infos.as_slice());
    }

    /// The best info: complete, of a copy that served when the group served last or later, and with none such preferred
    /// to it.
    pub fn best(&self) -> Option<&Info>
        ensures { option_copied result ≡ best_info (P.better self.now.prefer) self.now.infos }
    {
        self.lead.best()
    }
}
