//! The log of the best member, and what other copies lack by it.

ghost use Rattle.std.specs.Prelude.{◌≡◌, List, [], ◌∷◌, ◌++◌, true, IfOk, OnOk, OnErr};
ghost use Rattle.pgp_ids.specs.declared.log_entry.LogEntry.{LogEntry};
ghost use Rattle.pgp_ids.specs.declared.report.Info.{Info};
ghost use Rattle.pgp_missing.specs.Kept.{IsLogOf};
ghost use Rattle.pgp_missing.specs.Log.{by_number, is_whole};
ghost use Rattle.pgp_missing.specs.Missing.{peer_state};

use super::entries::Entries;
use pgp_ids::{Epoch, Info, LogEntry, PeerState, Version};
use std::alloc::{AllocError, Global};
use std::marker::Model;

/// The log of a member, by the bounds that its info sets and the entries that it reported.
///
/// It keeps the last entry of each number that was ever reported, also outside of the log, whose bounds another info may
/// change. A log may span 2^32 numbers: memory depends on the entries that were reported, and time on those within the log.
pub struct MemberLog {
    /// The version before the first write of the log.
    log_tail: Version,
    /// The version of the last write of the log.
    last_update: Version,
    /// All entries that were reported, by their numbers.
    entries: Entries,
}

// Written out, so that a crate which lets one go has nothing to prove of what lies within.
impl Drop for MemberLog {
    fn drop(self) {
        let MemberLog {
            log_tail: _,
            last_update: _,
            entries: _,
        } = self;
    }
}

impl Model for MemberLog {
    ghost use Rattle.pgp_missing.specs.Kept.{KeptLog};

    ghost Value = { KeptLog };

    ghost view = { λ l. record { log_tail = l.log_tail; last_update = l.last_update; entries = l.entries } };
}

impl MemberLog {
    /// The log of a member of which nothing is known yet: it ends before the first write. It takes no memory.
    pub fn new(alloc: Global) -> Self
        ensures { result ≡ record { log_tail = record { epoch = 0; v = 0 }; last_update = record { epoch = 0; v = 0 }; entries = [] } }
    {
        let log_tail = Version {
            epoch: Epoch::new(0),
            v: 0,
        };
        let last_update = log_tail;
        MemberLog {
            log_tail,
            last_update,
            entries: Entries::new(alloc),
        }
    }

    /// The log of the member with this info, of which no entry was reported yet. It takes no memory.
    pub fn begin(alloc: Global, info: &Info) -> Self
        ensures { IsLogOf info.now [] result }
    {
        MemberLog {
            log_tail: info.log_tail,
            last_update: info.last_update,
            entries: Entries::new(alloc),
        }
    }

    /// Takes an entry that the member reported, after those that were added before. After an error the log is as before.
    #[tactic(auto, using(std::proofs::lemmas::List::Sums::fold_push))]
    pub fn add(&mut self, entry: &LogEntry) -> Result<(), AllocError>
        ensures ok { OnOk result ((info : Info) (reported : List LogEntry)
            → IsLogOf info reported self.old → IsLogOf info (reported ++ entry.now ∷ []) self.new) }
        ensures entries { OnOk result ((reported : List LogEntry) → self.old.entries ≡ by_number reported
            → self.new.entries ≡ by_number (reported ++ entry.now ∷ [])) }
        ensures err { OnErr result (self.new ≡ self.old) }
    {
        self.entries.put(entry)
    }

    /// Takes the info that the member sent last, which sets the bounds of its log. The entries that were added stay.
    pub fn renew(&mut self, info: &Info)
        ensures { (reported : List LogEntry) → self.old.entries ≡ by_number reported
            → IsLogOf info.now reported self.new }
    {
        self.log_tail = info.log_tail;
        self.last_update = info.last_update;
    }

    /// The log is empty, or each of its numbers has an entry, the last is that of the member's last write, and epochs
    /// don't fall.
    pub fn whole(&self) -> bool
        ensures { (info : Info) (reported : List LogEntry)
            → IsLogOf info reported self.now → result ≡ is_whole info reported }
    {
        let (tail, end) = (self.log_tail, self.last_update);
        if end == tail {
            return true;
        }
        self.entries.is_full(tail.v, end.v)
            && self.entries.has_version(tail.v, end.v, end)
            && self.entries.is_rising(tail, end.v)
    }

    /// How the copy of the member with this info compares with that of the log's member. The log has to be whole.
    pub fn missing_of(&self, alloc: Global, peer: &Info) -> Result<PeerState, AllocError>
        requires { (info : Info) (reported : List LogEntry)
            → IsLogOf info reported self.now → is_whole info reported ≡ true }
        ensures { IfOk result (λ state. (info : Info) (reported : List LogEntry)
            → IsLogOf info reported self.now → state ≡ peer_state info reported peer.now) }
    {
        let (tail, end) = (self.log_tail, self.last_update);
        let peer_end = peer.last_update;
        if !peer.complete || peer_end.is_older_than(tail) {
            return Ok(PeerState::Backfill);
        }
        if peer_end != tail && !self.entries.has_version(tail.v, end.v, peer_end) {
            return Ok(PeerState::Diverged);
        }
        let objects = self.entries.missing_above(alloc, peer_end.v, end.v)?;
        Ok(PeerState::Missing(objects))
    }
}
