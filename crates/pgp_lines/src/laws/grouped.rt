//! Worked lines of version 2 of the format: grouped pools, traces by grouped codes, and how the key `v` is judged.
#![tactic(auto, unfolding(crate::specs::WorkedLines::text_computed))]

ghost use Rattle.std.specs.Prelude.{◌≡◌, [], ◌∷◌, replicate, codes, Ok, Err, Some, None, true};
ghost use Rattle.pgp_ids.specs.declared.entry.Entry.TheVariants.{Inc, Info, Close};
ghost use Rattle.pgp_ids.specs.declared.pool.PoolKind.TheVariants.{Grouped};
ghost use Rattle.pgp_lines.specs.LineFault.{unknown_key, bad_field};
ghost use Rattle.pgp_lines.specs.Command.{command_of};
ghost use Rattle.pgp_lines.specs.declared.command.format.Format.TheVariants.{Two};
ghost use Rattle.pgp_lines.specs.WorkedLines.{AreBad, close_of, worked_part, pair_and_single, trace_with, grouped_trace_line, grouped_trace, inc_with, empty_inc, grouped_pool_line, coded_command, pool_line, grouped_with, parts_line, made_of_parts, info_with, first_info};
ghost use Rattle.pgp_lines.specs.declared.command.Command.TheVariants.{Submit, Ask, Locate};

/// A grouped pool, in the first map of a cluster.
pub fn grouped_pool()
    ensures { command_of Two grouped_pool_line ≡ Ok (coded_command (Grouped pair_and_single)) }
{}

/// The slots of a part may come in any order, and parts have the places in which they come. That a slot comes twice, that a
/// part has none, that there is no part, and a least number that no part can have are left to the map.
pub fn parts_of_pools()
    ensures any_order { command_of Two (parts_line (codes "[[[2],1],[[1,0],2]]"))
        ≡ Ok (made_of_parts (worked_part (2 ∷ []) 1 ∷ worked_part (0 ∷ 1 ∷ []) 2 ∷ replicate 14 None)) }
    ensures last_slot { command_of Two (parts_line (codes "[[[15],255]]"))
        ≡ Ok (made_of_parts (worked_part (15 ∷ []) 255 ∷ replicate 15 None)) }
    ensures slot_twice { command_of Two (parts_line (codes "[[[3,3],1]]"))
        ≡ Ok (made_of_parts (Some (record { slots = 3 ∷ []; least = 1; twice = true }) ∷ replicate 15 None)) }
    ensures shared_slot { command_of Two (parts_line (codes "[[[0],1],[[0],1]]"))
        ≡ Ok (made_of_parts (worked_part (0 ∷ []) 1 ∷ worked_part (0 ∷ []) 1 ∷ replicate 14 None)) }
    ensures no_slot { command_of Two (parts_line (codes "[[[],0]]"))
        ≡ Ok (made_of_parts (worked_part [] 0 ∷ replicate 15 None)) }
    ensures no_part { command_of Two (parts_line (codes "[]")) ≡ Ok (made_of_parts (replicate 16 None)) }
{}

/// What are no parts of a pool: more than 16 of them, a slot that no member can have, more than 16 slots, a least number out
/// of range, and other shapes.
pub fn no_parts_of_pools()
    ensures bad_pools { AreBad parts_line (codes "pools") (
        codes "[[[16],1]]" ∷ codes "[[[null],1]]"
        ∷ codes "[[[0,0,0,0,0,0,0,0,0,0,0,0,0,0,0,0,0],1]]"
        ∷ codes "[[[],0],[[],0],[[],0],[[],0],[[],0],[[],0],[[],0],[[],0],[[],0],[[],0],[[],0],[[],0],[[],0],[[],0],[[],0],[[],0],[[],0]]"
        ∷ codes "[[[0],256]]" ∷ codes "[[[0]]]" ∷ codes "{}" ∷ codes "[[[0],1]],\"k\":1" ∷ []) }
    ensures absent { command_of Two (pool_line (codes "\"v\":2,") (codes "\"kind\":\"grouped\"")) ≡ Err (bad_field (codes "pools")) }
    ensures of_erasure { command_of Two (pool_line (codes "\"v\":2,") (codes "\"kind\":\"erasure\",\"k\":2,\"groups\":[[[0],1]]"))
        ≡ Err (bad_field (codes "pools")) }
{}

/// Version 1, which a line is of that names none, has no grouped pool and no trace by a grouped code.
pub fn grouped_in_version_1()
    ensures pool { command_of Two (pool_line (codes "\"v\":1,") (grouped_with (codes "[[[0],1]]"))) ≡ Err (bad_field (codes "pools")) }
    ensures pool_without_v { command_of Two (pool_line [] (grouped_with (codes "[[[0],1]]"))) ≡ Err (bad_field (codes "pools")) }
    ensures code { command_of Two (trace_with (codes "\"v\":1,") (codes "{\"kind\":\"grouped\",\"groups\":[[[0],1]]}"))
        ≡ Err (bad_field (codes "code")) }
    ensures code_without_v { command_of Two (trace_with [] (codes "{\"kind\":\"grouped\",\"groups\":[[[0],1]]}"))
        ≡ Err (bad_field (codes "code")) }
{}

/// Traces by a grouped code, in which a place may be empty.
pub fn grouped_traces()
    ensures two_parts { command_of Two (grouped_trace_line (codes "[[[0,1],1],[[2],1]]")) ≡ Ok (grouped_trace pair_and_single) }
    ensures last_slot { command_of Two (grouped_trace_line (codes "[[[15,14],2]]"))
        ≡ Ok (grouped_trace (worked_part (14 ∷ 15 ∷ []) 2 ∷ replicate 15 None)) }
{}

/// What is no grouped code of a trace: here it is also bad that a slot comes twice, in one part or in two, that there is no
/// part or one without slots, and a least number that isn't 1 to the number of slots.
pub fn no_grouped_code()
    ensures bad_code { AreBad grouped_trace_line (codes "code") (
        codes "[[[0,1],1],[[1],1]]" ∷ codes "[[[0,0],1]]" ∷ codes "[[[16],1]]" ∷ codes "[]"
        ∷ codes "[[[0],1],[[],0]]" ∷ codes "[[[0],0]]" ∷ codes "[[[0,1],3]]"
        ∷ codes "[[[0],1]],\"k\":1" ∷ []) }
    ensures absent { command_of Two (trace_with (codes "\"v\":2,") (codes "{\"kind\":\"grouped\"}")) ≡ Err (bad_field (codes "code")) }
    ensures of_erasure { command_of Two (trace_with (codes "\"v\":2,") (codes "{\"kind\":\"erasure\",\"k\":1,\"groups\":[[[0],1]]}"))
        ≡ Err (bad_field (codes "code")) }
    ensures empty_place_of_copies { command_of Two (trace_with (codes "\"v\":2,") (codes "{\"kind\":\"replicated\"}"))
        ≡ Err (bad_field (codes "epochs")) }
{}

/// Each operation may name its version, and says the same in both where it has nothing grouped. Of two the last counts.
pub fn versions()
    ensures close { command_of Two (codes "{\"op\":\"close\",\"v\":1}") ≡ Ok (Submit Close) }
    ensures close_of_2 { command_of Two (codes "{\"op\":\"close\",\"v\":2}") ≡ Ok (Submit Close) }
    ensures inc { command_of Two (codes "{\"op\":\"inc\",\"v\":2,\"epoch\":1}") ≡ Ok (Submit (Inc (empty_inc 1))) }
    ensures info { command_of Two (info_with (codes ",\"v\":2")) ≡ Ok (Submit (Info first_info)) }
    ensures ask { command_of Two (codes "{\"op\":\"ask\",\"pg\":[1,0],\"v\":2}") ≡ Ok (Ask (record { pool = 1; pg = 0 })) }
    ensures locate { command_of Two (codes "{\"op\":\"locate\",\"pool\":1,\"name\":\"a\",\"v\":2}") ≡ Ok (Locate 1 (codes "a")) }
    ensures twice { command_of Two (codes "{\"op\":\"close\",\"v\":3,\"v\":2}") ≡ Ok (Submit Close) }
{}

/// What is no version. It is one bad key among the others, of which the least is named: only an incremental has a key after
/// it. The others are read as in version 2.
pub fn no_version()
    ensures bad_v { AreBad close_of (codes "v") (
        codes "0" ∷ codes "3" ∷ codes "\"2\"" ∷ codes "2.0" ∷ codes "null" ∷ []) }
    ensures after_pg { command_of Two (codes "{\"op\":\"ask\",\"pg\":[0,0],\"v\":3}") ≡ Err (bad_field (codes "pg")) }
    ensures after_an_absent_key { command_of Two (codes "{\"op\":\"locate\",\"name\":\"a\",\"v\":3}") ≡ Err (bad_field (codes "pool")) }
    ensures after_up_thru { command_of Two (inc_with (codes "\"v\":3,\"up_thru\":0")) ≡ Err (bad_field (codes "up_thru")) }
    ensures before_weight { command_of Two (inc_with (codes "\"v\":3,\"weight\":0")) ≡ Err (bad_field (codes "v")) }
    ensures weight { command_of Two (inc_with (codes "\"v\":2,\"weight\":0")) ≡ Err (bad_field (codes "weight")) }
    ensures grouped_pool { command_of Two (pool_line (codes "\"v\":3,") (grouped_with (codes "[[[0],1]]"))) ≡ Err (bad_field (codes "v")) }
    ensures bad_parts { command_of Two (pool_line (codes "\"v\":3,") (grouped_with (codes "[[[16],1]]"))) ≡ Err (bad_field (codes "pools")) }
    ensures grouped_code { command_of Two (trace_with (codes "\"v\":0,") (codes "{\"kind\":\"grouped\",\"groups\":[[[0],1]]}"))
        ≡ Err (bad_field (codes "v")) }
    ensures after_an_unknown_key { command_of Two (codes "{\"op\":\"close\",\"v\":3,\"z\":0}") ≡ Err (unknown_key (codes "z")) }
{}
