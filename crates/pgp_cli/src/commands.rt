//! The program's command line and its help.
use clap::error::ErrorKind;
use clap::{Arg, ArgAction, ArgMatches, Command, Error};
use std::alloc::{AllocError, Global};

/// What `pgpeer --help` says after its usage.
const HELP: &str = "\
All read a script from standard input: lines of JSON, of which FORMAT.md (in docs,
or in share/doc/pgpeer) tells the keys.

Example:
  pgpeer run < script.jsonl
  pgpeer explain 1.a < script.jsonl
  pgpeer compact < script.jsonl > shorter.jsonl

'pgpeer run --help' and the like tell more.";

/// What `pgpeer run --help` says after its usage.
const RUN_HELP: &str = "\
A line is one JSON object, and its key op says what it is: inc, info, entries and
close add to the log; ask, locate and trace ask. Each line is answered by one line
of JSON, a blank line by none. FORMAT.md (in docs, or in share/doc/pgpeer) tells
the keys of each and the answers. These are the same, byte for byte, whatever the
numbers of shards and workers are. Workers pay where a script asks about many
groups with no entry between: they work groups out ahead, a shard each.

Exit status:
  0  the script was answered to its end
  2  the command line is wrong, or it was out of memory as it was read
  3  a read or a write failed, the script has more than 1000000 lines or
     4294967296 bytes, or there was no engine to answer it. The last comes only
     with workers, and has three causes: no memory, no thread, or no copy of the
     log for the engine";

/// What `pgpeer explain --help` says after its usage.
const EXPLAIN_HELP: &str = "\
The script is read as 'pgpeer run' reads it: each line is judged by the lines
before it. Standard error says which lines are refused, by their numbers, and why;
ask, locate and trace lines are read and not answered. At the end of the script
comes the explanation: of one group its verdict, what it waits for, which devices
to start so that it is Down no more, and what it is then; without a group, how many
groups have each verdict, which devices they wait for, and how many of them the
start of each device frees.

Example:
  pgpeer explain 1.a < script.jsonl
  pgpeer explain --json < script.jsonl

Exit status:
  0  the script was read to its end, and the explanation was written
  2  the command line is wrong, or it was out of memory as it was read
  3  a read or a write failed, the script has more than 1000000 lines or
     4294967296 bytes, the map has no such group, or it was out of memory";

/// What `pgpeer compact --help` says after its usage.
const COMPACT_HELP: &str = "\
The script is read as 'pgpeer run' reads it: each line is judged by the lines
before it. The lines that add entries are written as they are, all incrementals
among them, except for reports that no answer needs, now or after whatever lines
follow. Questions, blank lines and refused lines are left out too. Standard error
says how many entries were left out. A run of what is written, and of any lines
behind it, gives the same answers, with two exceptions: each count is less, and a
log that was full may have room.

With --join map incrementals that no answer tells apart become one, which passes
over their epochs: a line of version 3. Lines up to version 3 are read, and what is
written has to be read with --format 3. Past intervals that ended before a group
last began to serve may be missing in its answers then.

Examples:
  pgpeer compact < script.jsonl > shorter.jsonl
  pgpeer compact --join < script.jsonl > shortest.jsonl

Exit status:
  0  the script was read to its end, and what remains of it was written
  2  the command line is wrong, or it was out of memory as it was read
  3  a read or a write failed, the script has more than 1000000 lines or
     4294967296 bytes, or it was out of memory";

const FORMAT_HELP: &str = "Up to which version of the format lines are read, 2 or 3 [default: 2]";

const SHARDS_HELP: &str = "How many shards share the groups, 1 to 64 [default: 1]";

const WORKERS_HELP: &str =
    "How many threads read the log for the shards, 0 to 64; 0 answers on one thread [default: 0]";

const GROUP_HELP: &str =
    "The group, POOL.SEED: pool 1 to 255 in decimal, seed 0 to 3ff in hexadecimal [default: all groups]";

const LOSSES_HELP: &str =
    "Also says, of a group, what ends Down by declaring devices lost: the last resort";

const JSON_HELP: &str = "Writes one line of JSON in place of words";

const JOIN_HELP: &str =
    "Also joins map incrementals that no answer tells apart, by lines of version 3";

const OFFSET_HELP: &str =
    "Adds N, 0 to 4294967295, to each epoch that is written, except to 0 [default: 0]";

/// Parses a command line of the program. The first word is the program's name.
///
/// A request for help is an error too, and its text belongs on the standard output.
pub fn parse<'a>(alloc: Global, words: &'a [String]) -> Result<ArgMatches<'a>, Error> {
    pgpeer(alloc)?.try_get_matches_from(words)
}

/// The program's command line.
fn pgpeer<'a>(alloc: Global) -> Result<Command<'a>, AllocError> {
    Command::new(alloc, "pgpeer")
        .version("0.3.0")
        .about("Says where objects lie and whether placement groups may serve, from lines of JSON")
        .after_help(HELP)
        .subcommand_required(true)
        .subcommand(run(alloc)?)?
        .subcommand(explain(alloc)?)?
        .subcommand(compact(alloc)?)
}

/// `run [--shards N] [--workers N] [--format N]`
fn run<'a>(alloc: Global) -> Result<Command<'a>, AllocError> {
    Command::new(alloc, "run")
        .about("Reads a script from standard input and answers it line by line")
        .after_help(RUN_HELP)
        .arg(count(alloc, "shards", SHARDS_HELP))?
        .arg(count(alloc, "workers", WORKERS_HELP))?
        .arg(count(alloc, "format", FORMAT_HELP))
}

/// `explain [PG] [--losses] [--json] [--epoch-offset N] [--format N]`
fn explain<'a>(alloc: Global) -> Result<Command<'a>, AllocError> {
    Command::new(alloc, "explain")
        .about(
            "Reads a script from standard input and says why a group doesn't serve, and what it waits for",
        )
        .after_help(EXPLAIN_HELP)
        .arg(Arg::new(alloc, "pg").value_name("PG").help(GROUP_HELP))?
        .arg(flag(alloc, "losses", LOSSES_HELP))?
        .arg(flag(alloc, "json", JSON_HELP))?
        .arg(count(alloc, "epoch-offset", OFFSET_HELP))?
        .arg(count(alloc, "format", FORMAT_HELP))
}

/// `compact [--join] [--format N]`
fn compact<'a>(alloc: Global) -> Result<Command<'a>, AllocError> {
    Command::new(alloc, "compact")
        .about(
            "Reads a script from standard input and writes it without reports that no answer needs",
        )
        .after_help(COMPACT_HELP)
        .arg(flag(alloc, "join", JOIN_HELP))?
        .arg(count(alloc, "format", FORMAT_HELP))
}

/// An option that takes a number.
fn count<'a>(alloc: Global, name: &'a str, help: &'a str) -> Arg<'a> {
    Arg::new(alloc, name).long(name).value_name("N").help(help)
}

/// An option that takes nothing.
fn flag<'a>(alloc: Global, name: &'a str, help: &'a str) -> Arg<'a> {
    Arg::new(alloc, name)
        .long(name)
        .action(ArgAction::SetTrue)
        .help(help)
}

/// An error of this kind in the words after a subcommand, with that one's usage.
pub fn wrong(alloc: Global, name: &str, kind: ErrorKind, why: &str) -> Result<Error, AllocError> {
    match name {
        "explain" => explain(alloc)?.bin_name("pgpeer explain")?.error(kind, why),
        "compact" => compact(alloc)?.bin_name("pgpeer compact")?.error(kind, why),
        _ => run(alloc)?.bin_name("pgpeer run")?.error(kind, why),
    }
}
