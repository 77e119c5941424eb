//! The log that the lines of a script make.

ghost use Rattle.std.specs.Prelude.{◌≡◌, ℕ, List, [], Bool, None, map, true};
ghost use Rattle.pgp_ids.specs.declared.entry.Entry.{Entry};
ghost use Rattle.pgp_log.specs.Log.{is_legal};
ghost use Rattle.pgp_lines.specs.declared.command.format.Format.{Format};
ghost use Rattle.pgp_core.specs.Added.{log_of_lines};
ghost use Rattle.pgp_core.specs.Answerer.{MayAnswerBy};
ghost use Rattle.pgp_core.specs.Script.{logs};
ghost use Rattle.pgp_core.specs.WrittenFor.{AreWrittenFor};

/// The entries that the lines of a script add are a legal log: the one that a run of the script makes, where no line is
/// out of memory.
pub fn a_script_makes_its_log()
    ensures run { (format : Format) (lines : List (List ℕ)) → logs format [] (map (λ line. None) lines) lines ≡ log_of_lines format lines }
    ensures legal { (format : Format) (lines : List (List ℕ)) → is_legal (log_of_lines format lines) ≡ true }
{}

/// Where lines are answered, by one alone or beside others who add to the log, each log by which a line is answered is legal, if
/// the first one is: so is that of a run, which begins with an empty log.
pub fn lines_are_answered_by_legal_logs()
    ensures by { (alone : Bool) (before by : List Entry) → MayAnswerBy alone before by → is_legal before ≡ true → is_legal by ≡ true }
    ensures after { (alone : Bool) (format : Format) (before after : List Entry) (lines : List (List ℕ)) (text : List ℕ)
        → AreWrittenFor alone format before lines after text → is_legal before ≡ true → is_legal after ≡ true }
{}
