//! What the definitions say of small logs, and of a peer that has all writes.
ghost use Rattle.std.specs.Prelude.{◌≡◌, ℕ, All, AllPairs, Contains, ◌≤◌, ◌↔◌, List, [], ◌∷◌, ◌++◌, true, false, codes};
ghost use Rattle.pgp_ids.specs.Version.{is_older};
ghost use Rattle.pgp_ids.specs.declared.log_entry.Change.TheVariants.{Modify};
ghost use Rattle.pgp_ids.specs.declared.log_entry.LogEntry.{LogEntry};
ghost use Rattle.pgp_ids.specs.declared.peer.MissingObject.{MissingObject};
ghost use Rattle.pgp_ids.specs.declared.peer.PeerState.TheVariants.{Missing, Backfill, Diverged};
ghost use Rattle.pgp_ids.specs.declared.report.Info.{Info};
ghost use Rattle.pgp_missing.specs.Last.{IsLast};
ghost use Rattle.pgp_missing.specs.Log.{number_of, IsByNumber, is_in_log, log_of, has_each_number, HasEachNumber, is_rising_from, is_whole};
ghost use Rattle.pgp_missing.specs.Kept.{KeptLog, IsLogOf};
ghost use Rattle.pgp_missing.specs.Missing.{object_of, entries_above, missing_by, IsByName, missing_above, IsMissing, peer_state};
ghost use Rattle.pgp_missing.specs.Examples.{at, modify_at, delete_at, lacks_at, copy_between, copy_at, two_writes};

/// A complete peer that has the best copy's last write misses nothing.
#[tactic(auto, using(crate::proofs::MissingLemmas::equal_peer))]
pub fn equal_peers_miss_nothing()
    ensures { (best : Info) (reported : List LogEntry) (peer : Info)
        → is_whole best reported ≡ true → is_older best.last_update best.log_tail ≡ false
        → peer.complete ≡ true → peer.last_update ≡ best.last_update
        → peer_state best reported peer ≡ Missing [] }
{}

/// A log has as many entries as it has numbers exactly where an entry with each of its numbers was reported.
#[tactic(auto, using(crate::proofs::NumberLemmas::counted_exactly))]
pub fn counting_shows_that_no_number_is_lacking()
    ensures { (info : Info) (reported : List LogEntry)
        → (has_each_number info reported ≡ true) ↔ HasEachNumber info reported }
{}

/// Of each number a log has just the last entry that was reported with it, in ascending order of the numbers.
pub fn log_holds_the_last_entry_of_each_number()
    ensures last { (info : Info) (reported : List LogEntry) (log : KeptLog) → IsLogOf info reported log
        → (entry : LogEntry) → Contains log.entries entry ↔ IsLast number_of reported entry }
    ensures within { (info : Info) (reported : List LogEntry) (entry : LogEntry)
        → Contains (log_of info reported) entry
        ↔ ((is_in_log info entry.version.v ≡ true) × IsLast number_of reported entry) }
    ensures ascending { (info : Info) (reported : List LogEntry) → IsByNumber (log_of info reported) }
{}

/// An entry whose number isn't one of the log says nothing of it.
#[tactic(auto, using(crate::proofs::LogLemmas::outside_log))]
pub fn entries_outside_a_log_say_nothing_of_it()
    ensures { (info : Info) (reported : List LogEntry) (entry : LogEntry) → is_in_log info entry.version.v ≡ false
        → log_of info (reported ++ entry ∷ []) ≡ log_of info reported }
{}

/// Epochs that rise from one entry to the next rise from each entry to each later one.
#[tactic(auto, using(crate::proofs::LogLemmas::rising_laws))]
pub fn rising_epochs_never_fall()
    ensures { (epoch : ℕ) (entries : List LogEntry) → (is_rising_from epoch entries ≡ true)
        ↔ (All (λ e. epoch ≤ e.version.epoch) entries × AllPairs (λ a b. a.version.epoch ≤ b.version.epoch) entries) }
{}

/// A copy with the writes up to a number lacks just the objects whose last entry above that number is a modify; by a
/// log, that is the entry of the greatest number.
pub fn missing_objects_are_those_modified_last()
    ensures last { (v : ℕ) (entries : List LogEntry) (missing : MissingObject)
        → Contains (missing_above v entries) missing
        ↔ ((entry : LogEntry) × IsLast object_of (entries_above v entries) entry × (entry.change ≡ Modify) × (missing_by entry ≡ missing)) }
    ensures newest { (best : Info) (reported : List LogEntry) (v : ℕ) (missing : MissingObject)
        → Contains (missing_above v (log_of best reported)) missing
        ↔ ((entry : LogEntry) × IsMissing v (log_of best reported) missing entry) }
{}

/// What a copy lacks by a log comes in ascending order of the objects' names, each once.
pub fn missing_objects_come_by_name()
    ensures { (best : Info) (reported : List LogEntry) (v : ℕ)
        → IsByName (missing_above v (log_of best reported)) }
{}

/// With both entries the log from [1,1] to [2,3] is whole, and says what a peer lacks that stands at one of its versions.
pub fn whole_log()
    ensures whole { is_whole (copy_between (at 1 1) (at 2 3)) two_writes ≡ true }
    ensures at_the_first { let best = copy_between (at 1 1) (at 2 3) in
        peer_state best two_writes (copy_at (at 1 2)) ≡ Missing (lacks_at (codes "b") (at 2 3) ∷ []) }
    ensures at_the_tail { let best = copy_between (at 1 1) (at 2 3) in
        peer_state best two_writes (copy_at (at 1 1))
        ≡ Missing (lacks_at (codes "a") (at 1 2) ∷ lacks_at (codes "b") (at 2 3) ∷ []) }
    ensures at_no_version { let best = copy_between (at 1 1) (at 2 3) in
        peer_state best two_writes (copy_at (at 2 2)) ≡ Diverged }
    ensures before_the_tail { let best = copy_between (at 1 1) (at 2 3) in
        peer_state best two_writes (copy_at (at 0 0)) ≡ Backfill }
    ensures not_complete { let best = copy_between (at 1 1) (at 2 3) in
        peer_state best two_writes (record (copy_at (at 2 3)) { complete = false }) ≡ Backfill }
{}

/// A log isn't whole whose last entry isn't last_update, whose epochs fall, or that lacks a number.
pub fn broken_logs()
    ensures another_last { let last = modify_at (codes "b") (at 1 3) in
        is_whole (copy_between (at 1 1) (at 2 3)) (modify_at (codes "a") (at 1 2) ∷ last ∷ []) ≡ false }
    ensures falls_from_the_tail { is_whole (copy_between (at 2 1) (at 2 3)) two_writes ≡ false }
    ensures falls_between { let first = modify_at (codes "a") (at 3 2) in
        is_whole (copy_between (at 1 1) (at 2 3)) (first ∷ modify_at (codes "b") (at 2 3) ∷ []) ≡ false }
    ensures lacks_one { is_whole (copy_between (at 1 0) (at 2 3)) two_writes ≡ false }
    ensures lacks_most { is_whole (copy_between (at 1 1) (at 2 4294967295)) two_writes ≡ false }
    ensures no_entries { is_whole (copy_between (at 1 1) (at 2 3)) [] ≡ false }
{}

/// A log with no number is whole whatever was reported.
pub fn empty_log()
    ensures whole { is_whole (copy_at (at 2 3)) two_writes ≡ true }
    ensures empty { log_of (copy_at (at 2 3)) two_writes ≡ [] }
    ensures at_the_tail { peer_state (copy_at (at 2 3)) [] (copy_at (at 2 3)) ≡ Missing [] }
{}

/// By another info the same entries make up another log: of fewer numbers, or of more, of which some then lack one.
pub fn log_by_another_info()
    ensures ends_earlier { log_of (copy_between (at 1 1) (at 1 2)) two_writes ≡ modify_at (codes "a") (at 1 2) ∷ [] }
    ensures begins_later { log_of (copy_between (at 1 2) (at 2 3)) two_writes ≡ modify_at (codes "b") (at 2 3) ∷ [] }
    ensures whole_still { is_whole (copy_between (at 1 2) (at 2 3)) two_writes ≡ true }
    ensures goes_further { is_whole (copy_between (at 1 1) (at 2 4)) two_writes ≡ false }
    ensures begins_earlier { let first = modify_at (codes "z") (at 1 1) in
        log_of (copy_between (at 0 0) (at 2 3)) (first ∷ two_writes) ≡ first ∷ two_writes }
{}

/// Of the entries with one number the last counts, and their order is free.
pub fn entries_reported_again()
    ensures last { let first = modify_at (codes "z") (at 1 3) in
        log_of (copy_between (at 1 1) (at 2 3)) (first ∷ two_writes) ≡ two_writes }
    ensures whole { let first = modify_at (codes "z") (at 1 3) in
        is_whole (copy_between (at 1 1) (at 2 3)) (first ∷ two_writes) ≡ true }
    ensures any_order { let reported = modify_at (codes "b") (at 2 3) ∷ modify_at (codes "a") (at 1 2) ∷ [] in
        is_whole (copy_between (at 1 1) (at 2 3)) reported ≡ true }
{}

/// An object whose newest entry deletes it isn't missing; one that was made again is, once, at its newest version.
pub fn deletes()
    ensures deleted { missing_above 1 (modify_at (codes "a") (at 1 2) ∷ delete_at (codes "a") (at 1 3) ∷ []) ≡ [] }
    ensures made_again { let later = delete_at (codes "a") (at 1 3) ∷ modify_at (codes "a") (at 1 4) ∷ [] in
        missing_above 1 (modify_at (codes "a") (at 1 2) ∷ later) ≡ lacks_at (codes "a") (at 1 4) ∷ [] }
    ensures deleted_before { missing_above 2 (delete_at (codes "a") (at 1 2) ∷ modify_at (codes "b") (at 1 3) ∷ [])
        ≡ lacks_at (codes "b") (at 1 3) ∷ [] }
{}
