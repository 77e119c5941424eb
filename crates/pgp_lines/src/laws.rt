//! The names of operations, the versions of lines, and worked lines, which the definitions compute.

pub mod formats;
pub mod grouped;
pub mod incrementals;
pub mod lines;

ghost use Rattle.std.specs.Prelude.{◌≡◌, ◌-◌, ℕ, List, Some, Ok};
ghost use Rattle.serde_json.specs.Data.{Data};
ghost use Rattle.pgp_ids.specs.declared.entry.Entry.TheVariants.{Inc};
ghost use Rattle.pgp_ids.specs.declared.incremental.Incremental.{Incremental};
ghost use Rattle.pgp_lines.specs.Command.{command_of, data_of};
ghost use Rattle.pgp_lines.specs.Format.{format_of};
ghost use Rattle.pgp_lines.specs.Op.{op_name, op_named};
ghost use Rattle.pgp_lines.specs.declared.command.Command.TheVariants.{Submit};
ghost use Rattle.pgp_lines.specs.declared.command.format.Format.{Format};
ghost use Rattle.pgp_lines.specs.declared.command.format.Format.TheVariants.{Two, Three};
ghost use Rattle.pgp_lines.specs.declared.command.op.Op.{Op};

/// A line that has an operation's name names that operation.
pub fn operations_are_read_by_their_names()
    ensures { (op : Op) → op_named (op_name op) ≡ Some op }
{}

/// A line of version 1 or 2 is read alike where lines of version 3 are read too.
pub fn older_lines_are_read_alike()
    ensures { (line : List ℕ) (d : Data) (format : Format) → data_of line ≡ Some d → format_of Two d ≡ Some format
        → command_of Three line ≡ command_of Two line }
{}

/// An incremental of version 1 or 2 changes the map of the epoch before its own.
pub fn older_incrementals_pass_over_no_epoch()
    ensures up_to_2 { (line : List ℕ) (inc : Incremental) → command_of Two line ≡ Ok (Submit (Inc inc)) → inc.after ≡ inc.epoch - 1 }
    ensures up_to_3 { (line : List ℕ) (d : Data) (format : Format) (inc : Incremental) → data_of line ≡ Some d → format_of Two d ≡ Some format
        → command_of Three line ≡ Ok (Submit (Inc inc)) → inc.after ≡ inc.epoch - 1 }
{}
