//! The text of small scripts.
#![tactic(auto, unfolding(crate::specs::Worked::scripts_computed))]

ghost use Rattle.std.specs.Prelude.{◌≡◌, List, ℕ, [], ◌∷◌, ◌++◌, Option, Some, None, codes, length, true};
ghost use Rattle.pgp_ids.specs.declared.entry.Entry.{Entry as LogEntry};
ghost use Rattle.pgp_lines.specs.declared.command.format.Format.{Format};
ghost use Rattle.pgp_lines.specs.declared.command.format.Format.TheVariants.{Two};
ghost use Rattle.pgp_lines.specs.WorkedLines.{replicated_line};
ghost use Rattle.pgp_core.specs.declared.want.Want.{Want};
ghost use Rattle.pgp_core.specs.declared.want.Want.TheVariants.{Line, Entry};
ghost use Rattle.pgp_core.specs.Script.{Answers, script_text, answer, answers, log_past, logs};
ghost use Rattle.pgp_core.specs.WrittenFor.{AreWrittenFor};
ghost use Rattle.pgp_core.specs.Examples.{without_want, copies_located, copies_asked};

/// What is written for one line more depends on the log after the lines before it, and so does the log after that line.
pub fn answers_depend_on_the_lines_before()
    ensures text { (format : Format) (met : List (Option Want)) (lines : List (List ℕ)) (last : Option Want) (line : List ℕ)
        → length met ≡ length lines
        → answers format [] (met ++ last ∷ []) (lines ++ line ∷ [])
        ≡ answers format [] met lines ++ answer format (logs format [] met lines) last line }
    ensures log { (format : Format) (met : List (Option Want)) (lines : List (List ℕ)) (last : Option Want) (line : List ℕ)
        → length met ≡ length lines
        → logs format [] (met ++ last ∷ []) (lines ++ line ∷ []) ≡ log_past format (logs format [] met lines) last line }
{}

/// Where nobody else adds to the log, what is written for lines is the text of their answers, by the log before them: so what
/// `RanToEnd` and `WasStopped` say of a run is said of this text.
pub fn answers_are_written_for_lines()
    ensures written { (format : Format) (before after : List LogEntry) (lines : List (List ℕ)) (out : List ℕ)
        → AreWrittenFor true format before lines after out → Answers format before after lines out }
    ensures answers { (format : Format) (before after : List LogEntry) (lines : List (List ℕ)) (out : List ℕ)
        → Answers format before after lines out → AreWrittenFor true format before lines after out }
{}

/// An empty script has no answer, nor has a line of blanks.
pub fn scripts_without_answers()
    ensures empty { script_text Two [] [] ≡ [] }
    ensures blank { script_text Two (without_want 2) (codes "   \n\r\n") ≡ [] }
{}

/// Each line is judged by the lines before it. A last line without a line feed counts, and a line feed ends its answer too.
pub fn scripts_of_incrementals()
    ensures gap { script_text Two (without_want 2) (codes "{\"op\":\"inc\",\"epoch\":2}\n{\"op\":\"inc\",\"epoch\":1}")
        ≡ codes "{\"code\":10,\"refused\":\"EpochGap\"}\n{\"count\":1,\"epoch\":1,\"ok\":\"inc\"}\n" }
    ensures closed { script_text Two (without_want 2) (codes "{\"op\":\"close\"}\n{\"op\":\"inc\",\"epoch\":1}\n")
        ≡ codes "{\"count\":1,\"epoch\":0,\"ok\":\"close\"}\n{\"code\":64,\"refused\":\"Closed\"}\n" }
    ensures tree { script_text Two (without_want 1) (codes "{\"op\":\"inc\",\"epoch\":1,\"crush\":[]}\n")
        ≡ codes "{\"code\":21,\"refused\":\"TreeFault\",\"tree\":1}\n" }
{}

/// A line that is no command has no effect.
pub fn scripts_with_faults()
    ensures { script_text Two (without_want 3) (codes "{\"op\":\"close\"\n[]\n{\"op\":\"close\"}\n")
        ≡ codes "{\"code\":31,\"refused\":\"NotJson\"}\n{\"code\":32,\"refused\":\"NoOp\"}\n{\"count\":1,\"epoch\":0,\"ok\":\"close\"}\n" }
{}

/// A line that was out of memory has one of the two constant texts, and no effect.
pub fn scripts_out_of_memory()
    ensures entry { script_text Two (Some Entry ∷ None ∷ []) (codes "{\"op\":\"close\"}\n{\"op\":\"close\"}\n")
        ≡ codes "{\"code\":51,\"refused\":\"Memory\"}\n{\"count\":1,\"epoch\":0,\"ok\":\"close\"}\n" }
    ensures line { script_text Two (Some Line ∷ None ∷ []) (codes "{\"op\":\"close\"}\n{\"op\":\"close\"}\n")
        ≡ codes "{\"code\":41,\"refused\":\"Memory\"}\n{\"count\":1,\"epoch\":0,\"ok\":\"close\"}\n" }
{}

/// An object is looked for in the map of the lines before.
pub fn scripts_that_locate()
    ensures { script_text Two (without_want 3) (codes "{\"op\":\"locate\",\"pool\":1,\"name\":\"a\"}\n" ++ (replicated_line ++ codes "\n{\"op\":\"locate\",\"pool\":1,\"name\":\"a\"}\n"))
        ≡ codes "{\"code\":42,\"refused\":\"UnknownPool\"}\n{\"count\":1,\"epoch\":1,\"ok\":\"inc\"}\n" ++ copies_located }
{}

/// A group is asked for in the log of the lines before.
pub fn scripts_that_ask()
    ensures { script_text Two (without_want 3) (codes "{\"op\":\"ask\",\"pg\":[1,0]}\n" ++ (replicated_line ++ codes "\n{\"op\":\"ask\",\"pg\":[1,0]}\n"))
        ≡ codes "{\"code\":40,\"refused\":\"UnknownGroup\"}\n{\"count\":1,\"epoch\":1,\"ok\":\"inc\"}\n" ++ copies_asked }
{}
