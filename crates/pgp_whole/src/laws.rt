//! What holds of the script that is written: it makes the compacted log.

ghost use Rattle.std.specs.Prelude.{◌≡◌, ℕ, List, length};
ghost use Rattle.pgp_compact.specs.Compacted.{compacted};
ghost use Rattle.pgp_lines.specs.declared.command.format.Format.{Format};
ghost use Rattle.pgp_core.specs.Added.{log_of_lines};
ghost use Rattle.pgp_core.specs.Lines.{lines_of};
ghost use Rattle.pgp_whole.specs.Remaining.{compacted_text, remaining_lines};

/// Each line that remains adds its entry, and together they make the compacted log of the script. So a run of what is written
/// says of each group what a run of the script says, except for count, whatever lines follow
/// (`pgp_compact::laws::every_answer_is_the_same`). It takes the same entries, except that it may have room where the log of the
/// script is full (`what_follows_is_taken_alike`).
pub fn what_remains_makes_the_compacted_log()
    ensures lines { (format : Format) (script : List ℕ) → lines_of (compacted_text format script) ≡ remaining_lines format script }
    ensures log { (format : Format) (script : List ℕ)
        → log_of_lines format (lines_of (compacted_text format script)) ≡ compacted (log_of_lines format (lines_of script)) }
    ensures each { (format : Format) (script : List ℕ)
        → length (remaining_lines format script) ≡ length (log_of_lines format (remaining_lines format script)) }
{}

/// What is written stays as it is when it is compacted once more.
pub fn compacting_a_script_twice_is_compacting_it_once()
    ensures { (format : Format) (script : List ℕ) → compacted_text format (compacted_text format script) ≡ compacted_text format script }
{}
