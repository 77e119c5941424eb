//! Worked lines: faults, and traces.
#![tactic(auto, unfolding(crate::specs::WorkedLines::text_computed))]

ghost use Rattle.std.specs.Prelude.{◌≡◌, [], ◌∷◌, replicate, codes, Ok, Err};
ghost use Rattle.pgp_lines.specs.LineFault.{not_json, no_op, unknown_key, bad_field};
ghost use Rattle.pgp_ids.specs.declared.entry.Entry.TheVariants.{Info, Entries};
ghost use Rattle.pgp_lines.specs.Command.{command_of};
ghost use Rattle.pgp_lines.specs.declared.command.format.Format.TheVariants.{Two};
ghost use Rattle.pgp_lines.specs.WorkedLines.{AreBad, nested, close_with, trace_line, trace_command, erasure_line, erasure_command, info_with, info_line, first_info, edges_of_info_line, edges_of_info, entries_line, two_entries};
ghost use Rattle.pgp_lines.specs.declared.command.Command.TheVariants.{Submit, Ask, Locate};

/// What is no JSON text: one that is cut short, one with bytes behind it, a number that overflows, and no text at all.
pub fn no_json()
    ensures cut { command_of Two (codes "{\"op\":\"ask\"") ≡ Err not_json }
    ensures more { command_of Two (codes "{\"op\":\"close\"}}") ≡ Err not_json }
    ensures overflow { command_of Two (codes "{\"op\":\"inc\",\"epoch\":1e400}") ≡ Err not_json }
    ensures nothing { command_of Two (codes "") ≡ Err not_json }
{}

/// Lists within lists, all of them closed: 127 are read, and name no operation, and 128 are no JSON text.
pub fn nesting()
    ensures deepest { command_of Two (nested 127) ≡ Err no_op }
    ensures too_deep { command_of Two (nested 128) ≡ Err not_json }
{}

/// What names no operation: a list, another name, none, and one that isn't a text. No other key is looked at before.
pub fn no_operation()
    ensures list { command_of Two (codes "[]") ≡ Err no_op }
    ensures other { command_of Two (codes "{\"op\":\"peer\"}") ≡ Err no_op }
    ensures absent { command_of Two (codes "{\"x\":1}") ≡ Err no_op }
    ensures number { command_of Two (codes "{\"op\":1}") ≡ Err no_op }
{}

/// Of unknown keys the least is named, and before a key that is absent.
pub fn least_unknown_key()
    ensures of_a_trace { command_of Two (codes "{\"op\":\"trace\",\"z\":1,\"x\":1}") ≡ Err (unknown_key (codes "x")) }
    ensures of_an_incremental { command_of Two (codes "{\"op\":\"inc\",\"z\":1,\"code\":1}") ≡ Err (unknown_key (codes "code")) }
    ensures of_a_close { command_of Two (codes "{\"op\":\"close\",\"epoch\":1}") ≡ Err (unknown_key (codes "epoch")) }
{}

/// An unknown key is named whole, here one of 256 bytes.
pub fn long_unknown_key()
    ensures { command_of Two (close_with (replicate 256 120)) ≡ Err (unknown_key (replicate 256 120)) }
{}

/// Of absent keys and bad values the least key is named.
pub fn least_bad_key()
    ensures both_absent { command_of Two (codes "{\"op\":\"trace\"}") ≡ Err (bad_field (codes "code")) }
    ensures one_absent { command_of Two (codes "{\"op\":\"trace\",\"code\":{\"kind\":\"replicated\"}}") ≡ Err (bad_field (codes "epochs")) }
    ensures absent_before_bad { command_of Two (codes "{\"op\":\"inc\",\"up\":[4096]}") ≡ Err (bad_field (codes "epoch")) }
    ensures bad_before_absent { command_of Two (codes "{\"op\":\"inc\",\"down\":[4096]}") ≡ Err (bad_field (codes "down")) }
{}

/// Traces of one epoch.
pub fn traces()
    ensures replicated { command_of Two trace_line ≡ Ok trace_command }
    ensures erasure { command_of Two erasure_line ≡ Ok erasure_command }
{}

/// The lines of reports. An info that names no last_epoch_clean has 0 for it.
pub fn reports()
    ensures info { command_of Two info_line ≡ Ok (Submit (Info first_info)) }
    ensures clean { command_of Two (info_with (codes ",\"last_epoch_clean\":1")) ≡ Ok (Submit (Info (record first_info { last_epoch_clean = 1 }))) }
    ensures last_info { command_of Two edges_of_info_line ≡ Ok (Submit (Info edges_of_info)) }
    ensures entries { command_of Two entries_line ≡ Ok (Submit (Entries two_entries)) }
{}

/// What is no last_epoch_clean. It comes before last_update in byte order, and after history_les; and only an info has it.
pub fn no_clean_epoch()
    ensures bad_last_epoch_clean { AreBad info_with (codes "last_epoch_clean") (
        codes ",\"last_epoch_clean\":4294967296" ∷ codes ",\"last_epoch_clean\":1.0"
        ∷ codes ",\"last_epoch_clean\":null" ∷ codes ",\"last_epoch_clean\":null,\"last_update\":0" ∷ []) }
    ensures after_history_les { command_of Two (info_with (codes ",\"last_epoch_clean\":null,\"history_les\":null")) ≡ Err (bad_field (codes "history_les")) }
    ensures of_entries { command_of Two (codes "{\"op\":\"entries\",\"last_epoch_clean\":0}") ≡ Err (unknown_key (codes "last_epoch_clean")) }
{}

/// Where an object lies.
pub fn locates()
    ensures object { command_of Two (codes "{\"op\":\"locate\",\"pool\":1,\"name\":\"a\"}") ≡ Ok (Locate 1 (codes "a")) }
    ensures last_pool { command_of Two (codes "{\"name\":\"bc\",\"op\":\"locate\",\"pool\":255}") ≡ Ok (Locate 255 (codes "bc")) }
    ensures pool_0 { command_of Two (codes "{\"op\":\"locate\",\"pool\":0,\"name\":\"a\"}") ≡ Err (bad_field (codes "pool")) }
    ensures pool_256 { command_of Two (codes "{\"op\":\"locate\",\"pool\":256,\"name\":\"a\"}") ≡ Err (bad_field (codes "pool")) }
    ensures empty_name { command_of Two (codes "{\"op\":\"locate\",\"pool\":0,\"name\":\"\"}") ≡ Err (bad_field (codes "name")) }
    ensures no_text { command_of Two (codes "{\"op\":\"locate\",\"pool\":1,\"name\":1}") ≡ Err (bad_field (codes "name")) }
    ensures absent { command_of Two (codes "{\"op\":\"locate\"}") ≡ Err (bad_field (codes "name")) }
    ensures unknown_key { command_of Two (codes "{\"op\":\"locate\",\"pg\":[1,0]}") ≡ Err (unknown_key (codes "pg")) }
{}

/// The lines of questions about groups.
pub fn questions()
    ensures group { command_of Two (codes "{\"op\":\"ask\",\"pg\":[1,0]}") ≡ Ok (Ask (record { pool = 1; pg = 0 })) }
    ensures last_group { command_of Two (codes "{\"pg\":[255,1023],\"op\":\"ask\"}") ≡ Ok (Ask (record { pool = 255; pg = 1023 })) }
    ensures unknown_key { command_of Two (codes "{\"op\":\"ask\",\"pg\":[1,0],\"z\":1,\"x\":1}") ≡ Err (unknown_key (codes "x")) }
    ensures pool_0 { command_of Two (codes "{\"op\":\"ask\",\"pg\":[0,0]}") ≡ Err (bad_field (codes "pg")) }
    ensures absent { command_of Two (codes "{\"op\":\"ask\"}") ≡ Err (bad_field (codes "pg")) }
{}
