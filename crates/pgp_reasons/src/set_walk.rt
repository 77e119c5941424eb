ghost use Rattle.std.specs.Prelude.{◌≡◌, ◌<◌, ◌≤◌, ◌+◌, ◌++◌, [], ◌∷◌, false, length, filter, IfOk, IfSome, IfNone, OnOk};
ghost use Rattle.pgp_reasons.specs.kept.Looks.{looks_of, most_looks, HasStopped};
ghost use Rattle.pgp_reasons.specs.Smallest.{is_smallest, most_sets, smallest_with, AreFirstOf};

use super::enough::Enough;
use pgp_ids::{OsdId, Seq};
use std::alloc::{AllocError, Global};

/// How many sets a walk judges before it stops.
pub(crate) const LOOKS: usize = 10_000;

/// How many sets a walk lists before it stops.
pub(crate) const MOST_SETS: usize = 16;

/// What a walk over sets of devices has found of the smallest that are enough, and how far it may go on.
#[derive(Drop)]
pub(crate) struct SetWalk {
    pub(crate) sets: Seq<Seq<OsdId>>,
    /// How many more sets may be judged.
    pub(crate) looks: usize,
}

impl SetWalk {
    /// Before the walk.
    pub(crate) fn new(alloc: Global) -> Self
        ensures sets { result.sets ≡ [] }
        ensures looks { result.looks ≡ most_looks }
    {
        SetWalk {
            sets: Seq::new(alloc),
            looks: LOOKS,
        }
    }

    /// Whether these devices and those are enough together. None if no more sets may be judged.
    fn look<E: Enough>(&mut self, judge: &E, these: &[OsdId], those: &[OsdId]) -> Option<bool>
        ensures said { IfSome result (λ said. said ≡ E.enough judge.now (these.now ++ those.now)) }
        ensures kept { self.new.sets ≡ self.old.sets }
        ensures counted { self.old.looks ≤ self.new.looks + 1 }
        ensures stopped { IfNone result (self.new.looks ≡ 0) }
    {
        if self.looks == 0 {
            return None;
        }
        self.looks -= 1;
        Some(judge.is_enough(these, those))
    }

    /// Whether the set is enough, and no longer enough without any one of its devices. None if no more sets may be judged.
    fn is_smallest<E: Enough>(&mut self, judge: &E, set: &[OsdId]) -> Option<bool>
        ensures said { IfSome result (λ said. said ≡ is_smallest (E.enough judge.now) set.now) }
        ensures kept { self.new.sets ≡ self.old.sets }
        ensures counted { self.old.looks ≤ self.new.looks + (length set.now + 1) }
        ensures stopped { IfNone result (self.new.looks ≡ 0) }
    {
        if !self.look(judge, set, &[])? {
            return Some(false);
        }
        for place in 0..set.len() {
            if self.look(judge, &set[..place], &set[place + 1..])? {
                return Some(false);
            }
        }
        Some(true)
    }

    /// Lists the set, if it is one of the smallest. It answers whether the walk may go on.
    fn list_if_smallest<E: Enough>(
        &mut self,
        alloc: Global,
        judge: &E,
        set: &[OsdId],
    ) -> Result<bool, AllocError>
        ensures found { IfOk result (λ whole. AreFirstOf whole
            (self.old.sets ++ filter (is_smallest (E.enough judge.now)) (set.now ∷ [])) self.new.sets) }
        ensures bound { OnOk result (length self.old.sets ≤ most_sets → length self.new.sets ≤ most_sets) }
        ensures counted { OnOk result (self.old.looks ≤ self.new.looks + (length set.now + 1)) }
        ensures stopped { IfOk result (λ whole. whole ≡ false → HasStopped self.new.looks
            (self.old.sets ++ filter (is_smallest (E.enough judge.now)) (set.now ∷ [])) self.new.sets) }
    {
        match self.is_smallest(judge, set) {
            None => Ok(false),
            Some(false) => Ok(true),
            Some(true) => {
                if self.sets.len() == MOST_SETS {
                    return Ok(false);
                }
                self.sets.push(Seq::from_vec(set.to_vec(alloc)?))?;
                Ok(true)
            }
        }
    }

    /// Lists the smallest sets that are made of the chosen devices and of `left` devices of the rest. It answers whether it went
    /// through all of them: it stops once no more sets may be judged or listed.
    #[cycle(walk)]
    #[tactic(auto, using(crate::proofs::LookLemmas::some_looks))]
    pub(crate) fn walk<E: Enough>(
        &mut self,
        alloc: Global,
        judge: &E,
        chosen: &mut Vec<OsdId>,
        rest: &[OsdId],
        left: usize,
    ) -> Result<bool, AllocError>
        ensures found { IfOk result (λ whole. AreFirstOf whole
            (self.old.sets ++ smallest_with (E.enough judge.now) chosen.old.items left rest.now) self.new.sets) }
        ensures chosen { OnOk result (chosen.new.items ≡ chosen.old.items) }
        ensures bound { OnOk result (length self.old.sets ≤ most_sets → length self.new.sets ≤ most_sets) }
        ensures counted { OnOk result (self.old.looks ≤ self.new.looks
            + looks_of (length chosen.old.items + left) left (length rest.now)) }
        ensures stopped { IfOk result (λ whole. whole ≡ false → HasStopped self.new.looks
            (self.old.sets ++ smallest_with (E.enough judge.now) chosen.old.items left rest.now) self.new.sets) }
    {
        if left == 0 {
            return self.list_if_smallest(alloc, judge, chosen.as_slice());
        }
        match self.look(judge, chosen.as_slice(), &[]) {
            None => Ok(false),
            // They are enough without any of the rest.
            Some(true) => Ok(true),
            Some(false) => self.walk_on(alloc, judge, chosen, rest, left),
        }
    }

    /// The same if at least one of the rest is to be added: first the sets with the first of the rest, then those without it.
    #[cycle(walk)]
    #[tactic(auto, using(crate::proofs::LookLemmas::some_looks))]
    fn walk_on<E: Enough>(
        &mut self,
        alloc: Global,
        judge: &E,
        chosen: &mut Vec<OsdId>,
        rest: &[OsdId],
        left: usize,
    ) -> Result<bool, AllocError>
        requires { 0 < left }
        ensures found { IfOk result (λ whole. AreFirstOf whole
            (self.old.sets ++ smallest_with (E.enough judge.now) chosen.old.items left rest.now) self.new.sets) }
        ensures chosen { OnOk result (chosen.new.items ≡ chosen.old.items) }
        ensures bound { OnOk result (length self.old.sets ≤ most_sets → length self.new.sets ≤ most_sets) }
        ensures counted { OnOk result (self.old.looks + 1 ≤ self.new.looks
            + looks_of (length chosen.old.items + left) left (length rest.now)) }
        ensures stopped { IfOk result (λ whole. whole ≡ false → HasStopped self.new.looks
            (self.old.sets ++ smallest_with (E.enough judge.now) chosen.old.items left rest.now) self.new.sets) }
    {
        if rest.len() < left {
            return Ok(true);
        }
        let Some((first, others)) = rest.split_first() else {
            return Ok(true);
        };
        chosen.push(*first)?;
        let whole = self.walk(alloc, judge, chosen, others, left - 1)?;
        chosen.pop();
        if !whole {
            return Ok(false);
        }
        match self.look(judge, chosen.as_slice(), others) {
            None => Ok(false),
            // Without the first, all of the rest are too few.
            Some(false) => Ok(true),
            Some(true) => self.walk_on(alloc, judge, chosen, others, left),
        }
    }
}
