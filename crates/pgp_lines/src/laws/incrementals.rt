//! Worked lines of incrementals.
#![tactic(auto, unfolding(crate::specs::WorkedLines::text_computed))]

ghost use Rattle.std.specs.Prelude.{◌≡◌, [], ◌∷◌, codes, Ok, Err, Some};
ghost use Rattle.pgp_ids.specs.declared.entry.Entry.TheVariants.{Inc, Close};
ghost use Rattle.pgp_ids.specs.declared.pool.PoolKind.TheVariants.{Erasure};
ghost use Rattle.pgp_lines.specs.LineFault.{bad_field};
ghost use Rattle.pgp_lines.specs.Command.{command_of};
ghost use Rattle.pgp_lines.specs.declared.command.format.Format.TheVariants.{Two};
ghost use Rattle.pgp_lines.specs.WorkedLines.{AreBad, inc_with, inc_of_epoch, empty_inc, copies_with, replicated_line, replicated_command, first_three, erasure_pool_line, coded_command, edges_line, edges_command};
ghost use Rattle.pgp_lines.specs.declared.command.Command.TheVariants.{Submit};

/// The end of the log.
pub fn close()
    ensures { command_of Two (codes "{\"op\":\"close\"}") ≡ Ok (Submit Close) }
{}

/// An incremental that does nothing, and one whose tree has no bucket.
pub fn small_incrementals()
    ensures empty { command_of Two (codes "{\"op\":\"inc\",\"epoch\":1}")
        ≡ Ok (Submit (Inc (empty_inc 1))) }
    ensures no_buckets { command_of Two (codes "{\"op\":\"inc\",\"epoch\":1,\"crush\":[]}")
        ≡ Ok (Submit (Inc (record (empty_inc 1) { crush = Some [] }))) }
{}

/// A key that is twice in an object has its last value.
pub fn a_key_twice()
    ensures { command_of Two (codes "{\"op\":\"inc\",\"epoch\":null,\"epoch\":2}")
        ≡ Ok (Submit (Inc (empty_inc 2))) }
{}

/// A replicated pool with and without pg_temp.
pub fn replicated_pool()
    ensures temp { command_of Two replicated_line ≡ Ok (replicated_command (first_three 1 ∷ [])) }
    ensures no_temp { command_of Two (copies_with []) ≡ Ok (replicated_command []) }
{}

/// An erasure pool with pg_temp.
pub fn erasure_pool()
    ensures { command_of Two erasure_pool_line ≡ Ok (coded_command (Erasure 2)) }
{}

/// Each other key, with numbers at the ends of their ranges.
pub fn ends_of_ranges()
    ensures { command_of Two edges_line ≡ Ok edges_command }
{}

/// What is no epoch: a number with a fraction or an exponent, minus zero, a negative number, one too large, and others.
pub fn no_epoch()
    ensures { AreBad inc_of_epoch (codes "epoch") (
        codes "1.0" ∷ codes "1e0" ∷ codes "-0" ∷ codes "-1" ∷ codes "4294967296"
        ∷ codes "18446744073709551616" ∷ codes "\"1\"" ∷ codes "null" ∷ []) }
{}

/// What is no list of devices.
pub fn no_devices()
    ensures bad_up { AreBad inc_with (codes "up") (codes "\"up\":[4096]" ∷ codes "\"up\":0" ∷ []) }
    ensures bad_weight { AreBad inc_with (codes "weight") (
        codes "\"weight\":[[0]]" ∷ codes "\"weight\":[[0,1,2]]"
        ∷ codes "\"weight\":[[0,4294967296]]" ∷ []) }
    ensures null { command_of Two (inc_with (codes "\"down\":[null]"))
        ≡ Err (bad_field (codes "down")) }
    ensures negative { command_of Two (inc_with (codes "\"gone\":[-1]"))
        ≡ Err (bad_field (codes "gone")) }
    ensures lost_fraction { command_of Two (inc_with (codes "\"lost\":[[0,1.0]]"))
        ≡ Err (bad_field (codes "lost")) }
    ensures up_thru_of_no_device { command_of Two (inc_with (codes "\"up_thru\":[[4096,1]]"))
        ≡ Err (bad_field (codes "up_thru")) }
{}

/// What is no list of pools or of sizes.
pub fn no_pools()
    ensures bad_pools { AreBad inc_with (codes "pools") (
        codes "\"pools\":[{\"id\":0,\"pg_num\":1,\"kind\":\"replicated\",\"size\":3,\"min_size\":2,\"leaf\":0}]"
        ∷ codes "\"pools\":[{\"id\":256,\"pg_num\":1,\"kind\":\"replicated\",\"size\":3,\"min_size\":2,\"leaf\":0}]"
        ∷ codes "\"pools\":[{\"id\":1,\"pg_num\":65536,\"kind\":\"replicated\",\"size\":3,\"min_size\":2,\"leaf\":0}]"
        ∷ codes "\"pools\":[{\"id\":1,\"pg_num\":1,\"kind\":\"copies\",\"size\":3,\"min_size\":2,\"leaf\":0}]"
        ∷ codes "\"pools\":[{\"id\":1,\"pg_num\":1,\"kind\":\"replicated\",\"size\":256,\"min_size\":2,\"leaf\":0}]"
        ∷ codes "\"pools\":[{\"id\":1,\"pg_num\":1,\"kind\":\"replicated\",\"size\":3,\"min_size\":2,\"leaf\":0,\"k\":2}]"
        ∷ codes "\"pools\":[{\"id\":1,\"pg_num\":1,\"kind\":\"erasure\",\"size\":3,\"min_size\":2,\"leaf\":0}]"
        ∷ codes "\"pools\":[{\"id\":1,\"pg_num\":1,\"kind\":\"erasure\",\"size\":3,\"min_size\":2,\"leaf\":0,\"k\":256}]"
        ∷ codes "\"pools\":[{\"id\":1,\"pg_num\":1,\"kind\":\"replicated\",\"size\":3,\"min_size\":2}]" ∷ []) }
    ensures bad_sizes { AreBad inc_with (codes "sizes") (
        codes "\"sizes\":[[0,3,2]]" ∷ codes "\"sizes\":[[1,3]]" ∷ codes "\"sizes\":[[1,3,256]]" ∷ []) }
{}

/// What is no list of pg_temp.
pub fn no_temp()
    ensures { AreBad inc_with (codes "temp") (
        codes "\"temp\":[[1,1024,[]]]" ∷ codes "\"temp\":[[0,0,[]]]" ∷ codes "\"temp\":[[1,0]]"
        ∷ codes "\"temp\":[[1,0,[4096]]]" ∷ []) }
{}

/// What is no tree.
pub fn no_tree()
    ensures { AreBad inc_with (codes "crush") (
        codes "\"crush\":{}" ∷ codes "\"crush\":null"
        ∷ codes "\"crush\":[{\"id\":0,\"type\":1,\"alg\":\"uniform\",\"items\":[0]}]"
        ∷ codes "\"crush\":[{\"id\":-65537,\"type\":1,\"alg\":\"uniform\",\"items\":[0]}]"
        ∷ codes "\"crush\":[{\"id\":-1,\"type\":256,\"alg\":\"uniform\",\"items\":[0]}]"
        ∷ codes "\"crush\":[{\"id\":-1,\"type\":1,\"alg\":\"straw\",\"items\":[0]}]"
        ∷ codes "\"crush\":[{\"id\":-1,\"type\":1,\"alg\":\"uniform\",\"items\":[65536]}]"
        ∷ codes "\"crush\":[{\"id\":-1,\"type\":1,\"alg\":\"uniform\",\"items\":[-65537]}]"
        ∷ codes "\"crush\":[{\"id\":-1,\"type\":1,\"alg\":\"uniform\",\"items\":[0],\"weights\":[1]}]"
        ∷ codes "\"crush\":[{\"id\":-1,\"type\":1,\"alg\":\"list\",\"items\":[0]}]"
        ∷ codes "\"crush\":[{\"id\":-1,\"type\":1,\"alg\":\"list\",\"items\":[0],\"weights\":[]}]"
        ∷ codes "\"crush\":[{\"id\":-1,\"type\":1,\"alg\":\"uniform\",\"items\":[0],\"hash\":0}]" ∷ []) }
{}
