//! What holds of a compacted log: every answer is that of the whole one, whatever entries follow.

ghost use Rattle.std.specs.Prelude.{◌≡◌, ◌≢◌, ◌<◌, ◌≤◌, ◌++◌, ℕ, List, Some, None, true, false, length, option_map};
ghost use Rattle.pgp_ids.specs.declared.entry.Entry.{Entry};
ghost use Rattle.pgp_ids.specs.declared.pg_id.PgId.{PgId};
ghost use Rattle.pgp_ids.specs.declared.refusal.Refusal.TheVariants.{LogFull};
ghost use Rattle.pgp_map.specs.Checked.{are_checked};
ghost use Rattle.pgp_group.specs.Entries.{incs_of};
ghost use Rattle.pgp_group.specs.GroupLog.{GroupLog, group_in};
ghost use Rattle.pgp_group.specs.Interleaving.{with_count};
ghost use Rattle.pgp_group.specs.View.{scratch};
ghost use Rattle.pgp_log.specs.Fits.{entry_fault, fits, is_closed, longest_log};
ghost use Rattle.pgp_log.specs.Log.{is_legal};
ghost use Rattle.pgp_reasons.specs.Price.{price};
ghost use Rattle.pgp_reasons.specs.Reasons.{AreReasons};
ghost use Rattle.pgp_reasons.specs.declared.reasons.Reasons.{Reasons};
ghost use Rattle.pgp_compact.specs.Compacted.{compacted};

use pgp_group::laws::later::what_does_not_count_never_counts_again;

/// The compacted log of a legal log is legal, has no more entries, the same incrementals in their order, and is closed if the
/// log is.
pub fn a_compacted_log_is_legal()
    ensures legal { (log : List Entry) → is_legal log ≡ true → is_legal (compacted log) ≡ true }
    ensures shorter { (log : List Entry) → length (compacted log) ≤ length log }
    ensures incs { (log : List Entry) → incs_of (compacted log) ≡ incs_of log }
    ensures closed { (log : List Entry) → is_closed (compacted log) ≡ is_closed log }
{}

/// The view of each group is that of the log, except for count: now, and after whatever entries follow, of which each
/// incremental was checked when it came. So it is after each list that the compacted log takes, also where the whole one would be full. A
/// group that one of them doesn't have, the other doesn't have either.
pub fn every_answer_is_the_same()
    ensures now { (log : List Entry) (pg : PgId) → is_legal log ≡ true
        → scratch (compacted log) pg ≡ option_map (with_count (length (compacted log))) (scratch log pg) }
    ensures after { (log more : List Entry) (pg : PgId) → is_legal log ≡ true → are_checked (incs_of (log ++ more)) ≡ true
        → scratch (compacted log ++ more) pg ≡ option_map (with_count (length (compacted log ++ more))) (scratch (log ++ more) pg) }
    ensures taken { (log more : List Entry) (pg : PgId) → is_legal log ≡ true → is_legal (compacted log ++ more) ≡ true
        → scratch (compacted log ++ more) pg ≡ option_map (with_count (length (compacted log ++ more))) (scratch (log ++ more) pg) }
{
    what_does_not_count_never_counts_again();
    pgp_log::laws::legal_logs_are_checked_and_short();
}

/// What is said of why a group doesn't serve, and of what would end its waiting, is the same in every field by the log and by the
/// compacted one, now and after whatever entries follow, of which each incremental was checked when it came: whom it has heard, the
/// intervals that block it, with the last clean epoch of each, the smallest sets of devices that are enough, the last interval in
/// which it was clean, the copies that may be followed, what its acting set lacks, and the writes that the best copy's log lacks. So is
/// what it costs to boot some devices and to declare others lost.
pub fn every_reason_is_the_same()
    ensures kept { (log more : List Entry) (pg : PgId) (whole less : GroupLog) (reasons : Reasons) → is_legal log ≡ true
        → are_checked (incs_of (log ++ more)) ≡ true → group_in (log ++ more) pg ≡ Some whole → group_in (compacted log ++ more) pg ≡ Some less
        → AreReasons whole reasons → AreReasons less reasons }
    ensures told { (log more : List Entry) (pg : PgId) (whole less : GroupLog) (reasons : Reasons) → is_legal log ≡ true
        → are_checked (incs_of (log ++ more)) ≡ true → group_in (log ++ more) pg ≡ Some whole → group_in (compacted log ++ more) pg ≡ Some less
        → AreReasons less reasons → AreReasons whole reasons }
    ensures price { (log more : List Entry) (pg : PgId) (whole less : GroupLog) (starts losses : List ℕ) → is_legal log ≡ true
        → are_checked (incs_of (log ++ more)) ≡ true → group_in (log ++ more) pg ≡ Some whole → group_in (compacted log ++ more) pg ≡ Some less
        → price starts losses less ≡ price starts losses whole }
{
    what_does_not_count_never_counts_again();
}

/// What may follow the log may follow the compacted one. The next entry is taken or refused alike, with the same reason, except
/// that the compacted log may have room where the whole one is full. There too both are closed or neither is, and by its map each
/// finds the same wrong with an entry: the compacted log takes one with which nothing is wrong as long as it has room. The map stays
/// the same.
pub fn what_follows_is_taken_alike()
    ensures legal { (log more : List Entry) → is_legal (log ++ more) ≡ true → is_legal (compacted log ++ more) ≡ true }
    ensures closed { (log more : List Entry) → is_closed (compacted log ++ more) ≡ is_closed (log ++ more) }
    ensures fault { (log more : List Entry) (new : Entry) → entry_fault (compacted log ++ more) new ≡ entry_fault (log ++ more) new }
    ensures room { (log more : List Entry) (new : Entry) → is_closed (log ++ more) ≡ false → entry_fault (log ++ more) new ≡ None
        → length (compacted log ++ more) < longest_log → fits (compacted log ++ more) new ≡ None }
    ensures next { (log more : List Entry) (new : Entry) → fits (log ++ more) new ≢ Some LogFull
        → fits (compacted log ++ more) new ≡ fits (log ++ more) new }
    ensures incs { (log more : List Entry) → incs_of (compacted log ++ more) ≡ incs_of (log ++ more) }
    ensures shorter { (log more : List Entry) → length (compacted log ++ more) ≤ length (log ++ more) }
{}

/// A compacted log that is compacted once more stays as it is.
pub fn compacting_twice_is_compacting_once()
    ensures { (log : List Entry) → compacted (compacted log) ≡ compacted log }
{}

/// Compacting a compacted log to which entries were added is compacting the whole log with them, whatever they are, if each
/// incremental was checked when it came. So a log that is compacted from time to time is no longer than one that is compacted once.
pub fn compacting_as_one_goes_is_compacting_once()
    ensures { (log more : List Entry) → is_legal log ≡ true → are_checked (incs_of (log ++ more)) ≡ true
        → compacted (compacted log ++ more) ≡ compacted (log ++ more) }
{
    what_does_not_count_never_counts_again();
}
