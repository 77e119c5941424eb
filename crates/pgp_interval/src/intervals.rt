ghost use Rattle.std.specs.Prelude.{◌≡◌, ℕ, ◌+◌, ◌<◌, ◌≤◌, List, [], ◌∷◌, ◌++◌, length, slice_get, Some, IfOk, IfNone, IfSome, IsSomeAnd, OnOk, OnErr, false};
ghost use Rattle.pgp_ids.specs.declared.history.PrimaryFacts.{PrimaryFacts as Facts};
ghost use Rattle.pgp_interval.specs.History.{History, begun, grown, stayed};
ghost use Rattle.pgp_interval.specs.IntervalsOf.{IsIntervalsOf};
ghost use Rattle.pgp_ids.specs.Past.{raised_at};
ghost use Rattle.pgp_interval.specs.Runs.{past_intervals, current_first};

use super::acting::may_have_gone_rw;
use super::raise::place_to_raise;
use pgp_code::Recoverable;
use pgp_ids::{Epoch, Membership, Past, PrimaryFacts};
use std::alloc::{AllocError, Global};
use std::marker::Model;
use std::mem;

/// The intervals of a placement group, of a pool with the code `R`, as its history grows.
///
/// It keeps the past intervals and the current one, and nothing of single epochs. At any time an info can name an epoch
/// in which the group was clean (`clean`).
pub struct Intervals<R> {
    /// The first epoch of the current interval.
    first: Epoch,
    /// The current epoch.
    last: Epoch,
    /// The membership of the current interval.
    current: Membership,
    /// Whether the group was clean in an epoch of the current interval.
    clean: bool,
    /// The past intervals, in ascending order.
    past: Vec<Past>,
    code: R,
}

// Written out, so that a crate which lets one go has nothing to prove of what lies within.
impl<R: Drop> Drop for Intervals<R> {
    fn drop(self) {
        let Intervals {
            first: _,
            last: _,
            current: _,
            clean: _,
            past: _,
            code: _,
        } = self;
    }
}

impl<R> Model for Intervals<R> {
    ghost use Rattle.pgp_interval.specs.IntervalsOf.{Running};

    ghost Value = { Running R };

    ghost view = { λ i. record {
      code = i.code;
      past = i.past.items;
      first = i.first;
      last = i.last;
      current = i.current;
      clean = i.clean;
    } };
}

impl<R: Recoverable> Intervals<R> {
    /// The intervals of a history of one epoch, the first of the group's life, which is not over yet.
    pub fn begin(alloc: Global, code: R, first: Epoch, members: Membership) -> Self
        ensures { IsIntervalsOf R.enough R.by_place (begun code first members) [] result }
    {
        Intervals {
            first,
            last: first,
            current: members,
            clean: false,
            past: Vec::new(alloc),
            code,
        }
    }

    /// A later epoch, with its membership. The epochs that it passes over have the membership of the current one.
    ///
    /// `facts` are those of the primary that was acting until now, in the map of the epoch that was current: they
    /// complete that epoch and those passed over. After an error the intervals are as before. Where `epoch` isn't later than the
    /// current one, nothing is promised of them.
    pub fn step(
        &mut self,
        epoch: Epoch,
        members: Membership,
        facts: PrimaryFacts,
    ) -> Result<(), AllocError>
        ensures ok { OnOk result ((h : History R) (cleans : List ℕ) (passed : ℕ)
            → IsIntervalsOf R.enough R.by_place h cleans self.old → epoch ≡ self.old.last + passed + 1
            → IsIntervalsOf R.enough R.by_place (grown h passed members facts) cleans self.new) }
        ensures err { OnErr result (self.new ≡ self.old) }
    {
        if self.current != members {
            self.past.reserve(1)?;
            let members = mem::replace(&mut self.current, members);
            let rw = may_have_gone_rw(&self.code, &members, facts, self.first, self.clean);
            self.past.push_reserved(Past {
                first: self.first,
                last: epoch.before(),
                members,
                rw,
            });
            self.first = epoch;
            self.clean = false;
        }
        self.last = epoch;
        Ok(())
    }

    /// The epochs after the current one up to `to`, all with the membership of the current one: `to` is the current epoch then. It
    /// takes no memory.
    ///
    /// What the maps of these epochs say of the primary plays no part as long as the membership stays.
    pub fn stay(&mut self, to: Epoch)
        ensures is { self.new ≡ record self.old { last = to } }
        ensures stays { (h : History R) (cleans : List ℕ) (told : List Facts)
            → IsIntervalsOf R.enough R.by_place h cleans self.old → to ≡ self.old.last + length told
            → IsIntervalsOf R.enough R.by_place (stayed h told) cleans self.new }
    {
        self.last = to;
    }

    /// An info of the group names this epoch as its `last_epoch_clean`: all of the group's copies were complete and in
    /// place then. It takes no memory.
    ///
    /// Answers the place of the past interval that turns out to have gone read-write, where there is one. For the
    /// current interval the epoch is remembered until it ends. An epoch before the group's first has no effect.
    pub fn clean(&mut self, epoch: Epoch) -> Option<usize>
        requires { epoch ≤ self.old.last }
        ensures history { (h : History R) (cleans : List ℕ)
            → IsIntervalsOf R.enough R.by_place h cleans self.old
            → IsIntervalsOf R.enough R.by_place h (cleans ++ epoch ∷ []) self.new }
        ensures none { IfNone result (self.new.past ≡ self.old.past) }
        ensures was { IfSome result
            (λ place. IsSomeAnd (slice_get self.old.past place) (λ p. p.rw ≡ false)) }
        ensures raised { IfSome result (λ place. self.new.past ≡ raised_at place self.old.past) }
        ensures rest { self.new ≡ record self.old { past = self.new.past; clean = self.new.clean } }
    {
        if self.first <= epoch {
            self.clean = true;
            return None;
        }
        let place = place_to_raise(&self.code, self.past.as_slice(), epoch)?;
        self.past[place].rw = true;
        Some(place)
    }

    /// The code that says when slots are enough to read or write.
    pub fn code(&self) -> &R
        ensures { result.now ≡ self.now.code }
    {
        &self.code
    }

    /// The current epoch.
    pub fn last(&self) -> Epoch
        ensures { result ≡ self.now.last }
    {
        self.last
    }

    /// The past intervals, in ascending order.
    pub fn past(&self, alloc: Global) -> Result<Vec<Past>, AllocError>
        ensures { IfOk result (λ past. (h : History R) (cleans : List ℕ)
            → IsIntervalsOf R.enough R.by_place h cleans self.now
            → past.items ≡ past_intervals R.enough R.by_place cleans h) }
    {
        let mut past = Vec::with_capacity(alloc, self.past.len())?;
        for interval in self.past.as_slice() {
            past.push(interval.copy())?;
        }
        Ok(past)
    }

    /// How many past intervals there are.
    pub fn past_len(&self) -> usize
        ensures kept { result ≡ length self.now.past }
        ensures past { (h : History R) (cleans : List ℕ)
            → IsIntervalsOf R.enough R.by_place h cleans self.now
            → result ≡ length (past_intervals R.enough R.by_place cleans h) }
    {
        self.past.len()
    }

    /// The past interval at this place, in ascending order. It takes no memory.
    pub fn past_at(&self, place: usize) -> Past
        requires { place < length self.now.past }
        ensures { (h : History R) (cleans : List ℕ) → IsIntervalsOf R.enough R.by_place h cleans self.now
            → slice_get (past_intervals R.enough R.by_place cleans h) place ≡ Some result }
    {
        self.past[place].copy()
    }

    /// The membership of the current interval.
    pub fn members(&self) -> &Membership
        ensures { (h : History R) (cleans : List ℕ)
            → IsIntervalsOf R.enough R.by_place h cleans self.now → result.now ≡ h.current }
    {
        &self.current
    }

    /// The interval that reaches the current epoch: its first epoch and its membership.
    pub fn current(&self) -> (Epoch, Membership)
        ensures first { (h : History R) (cleans : List ℕ)
            → IsIntervalsOf R.enough R.by_place h cleans self.now → result.0 ≡ current_first h }
        ensures members { (h : History R) (cleans : List ℕ)
            → IsIntervalsOf R.enough R.by_place h cleans self.now → result.1 ≡ h.current }
    {
        (self.first, self.current.copy())
    }
}
