//! Worked lines where lines up to version 3 are read.
#![tactic(auto, unfolding(crate::specs::WorkedLines::text_computed))]

ghost use Rattle.std.specs.Prelude.{◌≡◌, [], ◌∷◌, replicate, codes, Ok, Err, None};
ghost use Rattle.pgp_ids.specs.declared.entry.Entry.TheVariants.{Inc, Close};
ghost use Rattle.pgp_lines.specs.LineFault.{unknown_key, bad_field};
ghost use Rattle.pgp_lines.specs.Command.{command_of};
ghost use Rattle.pgp_lines.specs.declared.command.format.Format.TheVariants.{Two, Three};
ghost use Rattle.pgp_lines.specs.declared.command.Command.TheVariants.{Submit};
ghost use Rattle.pgp_lines.specs.WorkedLines.{worked_part, inc_with, pool_line, grouped_with, made_of_parts, root_line, straw2_bucket, straw2_command, inc_of_three, empty_inc};

/// Version 3 has straw2 buckets, with a weight for each item.
pub fn straw2_trees()
    ensures tree { command_of Three (root_line (codes "\"v\":3,") straw2_bucket) ≡ Ok straw2_command }
    ensures no_weights { command_of Three (root_line (codes "\"v\":3,") (codes "\"alg\":\"straw2\",\"items\":[0,1]"))
        ≡ Err (bad_field (codes "crush")) }
    ensures fewer_weights { command_of Three (root_line (codes "\"v\":3,") (codes "\"alg\":\"straw2\",\"items\":[0,1],\"weights\":[1]"))
        ≡ Err (bad_field (codes "crush")) }
    ensures other_alg { command_of Three (root_line (codes "\"v\":3,") (codes "\"alg\":\"straw\",\"items\":[0],\"weights\":[1]"))
        ≡ Err (bad_field (codes "crush")) }
{}

/// No other version has them, and version 3 is read on request alone.
pub fn straw2_in_other_versions()
    ensures without_v { command_of Three (root_line [] straw2_bucket) ≡ Err (bad_field (codes "crush")) }
    ensures version_1 { command_of Three (root_line (codes "\"v\":1,") straw2_bucket) ≡ Err (bad_field (codes "crush")) }
    ensures version_2 { command_of Three (root_line (codes "\"v\":2,") straw2_bucket) ≡ Err (bad_field (codes "crush")) }
    ensures not_read { command_of Two (root_line (codes "\"v\":3,") straw2_bucket) ≡ Err (bad_field (codes "crush")) }
{}

/// Version 3 has what version 2 has too, and other keys are unknown to it.
pub fn lines_of_version_3()
    ensures close { command_of Three (codes "{\"op\":\"close\",\"v\":3}") ≡ Ok (Submit Close) }
    ensures grouped { command_of Three (pool_line (codes "\"v\":3,") (grouped_with (codes "[[[0],1]]")))
        ≡ Ok (made_of_parts (worked_part (0 ∷ []) 1 ∷ replicate 15 None)) }
    ensures other_key { command_of Three (inc_with (codes "\"v\":3,\"before\":0")) ≡ Err (unknown_key (codes "before")) }
{}

/// In version 3 an incremental may name the epoch of the map that it changes. Where it doesn't, that is the epoch before its own.
pub fn incrementals_after_a_map()
    ensures named { command_of Three (inc_of_three (codes "\"epoch\":9,\"after\":3")) ≡ Ok (Submit (Inc (record (empty_inc 9) { after = 3 }))) }
    ensures of_no_map { command_of Three (inc_of_three (codes "\"epoch\":9,\"after\":0")) ≡ Ok (Submit (Inc (record (empty_inc 9) { after = 0 }))) }
    ensures of_the_last { command_of Three (inc_of_three (codes "\"epoch\":1,\"after\":4294967295"))
        ≡ Ok (Submit (Inc (record (empty_inc 1) { after = 4294967295 }))) }
    ensures absent { command_of Three (inc_of_three (codes "\"epoch\":9")) ≡ Ok (Submit (Inc (record (empty_inc 9) { after = 8 }))) }
    ensures absent_at_0 { command_of Three (inc_of_three (codes "\"epoch\":0")) ≡ Ok (Submit (Inc (record (empty_inc 0) { after = 0 }))) }
{}

/// What is no epoch of a map. It is judged before the tree, and after the keys; and only an incremental has it.
pub fn no_epoch_of_a_map()
    ensures fraction { command_of Three (inc_of_three (codes "\"epoch\":1,\"after\":0.0")) ≡ Err (bad_field (codes "after")) }
    ensures too_large { command_of Three (inc_of_three (codes "\"epoch\":1,\"after\":4294967296")) ≡ Err (bad_field (codes "after")) }
    ensures before_a_tree { command_of Three (inc_of_three (codes "\"epoch\":1,\"crush\":0,\"after\":null")) ≡ Err (bad_field (codes "after")) }
    ensures unknown_key { command_of Three (inc_of_three (codes "\"epoch\":1,\"after\":null,\"z\":0")) ≡ Err (unknown_key (codes "z")) }
    ensures of_a_close { command_of Three (codes "{\"op\":\"close\",\"v\":3,\"after\":0}") ≡ Err (unknown_key (codes "after")) }
{}

/// No other version has that key. A line whose version isn't read has the keys of the last that is.
pub fn after_in_other_versions()
    ensures without_v { command_of Three (inc_with (codes "\"after\":0")) ≡ Err (unknown_key (codes "after")) }
    ensures version_1 { command_of Three (inc_with (codes "\"v\":1,\"after\":0")) ≡ Err (unknown_key (codes "after")) }
    ensures version_2 { command_of Three (inc_with (codes "\"v\":2,\"after\":0")) ≡ Err (unknown_key (codes "after")) }
    ensures version_4 { command_of Three (inc_with (codes "\"v\":4,\"after\":0")) ≡ Err (bad_field (codes "v")) }
    ensures not_read { command_of Two (inc_with (codes "\"v\":3,\"after\":0")) ≡ Err (unknown_key (codes "after")) }
{}

/// What is no version then. The other keys of such a line are read as in version 3.
pub fn no_version_up_to_3()
    ensures four { command_of Three (codes "{\"op\":\"close\",\"v\":4}") ≡ Err (bad_field (codes "v")) }
    ensures zero { command_of Three (codes "{\"op\":\"close\",\"v\":0}") ≡ Err (bad_field (codes "v")) }
    ensures after_a_tree { command_of Three (root_line (codes "\"v\":4,") straw2_bucket) ≡ Err (bad_field (codes "v")) }
{}
