//! What the words of a command line ask for.
ghost use Rattle.std.specs.Prelude.{◌≡◌, ◌≤◌, IfOk, None, Ok};
ghost use Rattle.pgp_lines.specs.declared.command.format.Format.TheVariants.{Two};

use super::commands::{parse, wrong};
use clap::error::ErrorKind;
use clap::{ArgMatches, Error};
use pgp_ids::{PgId, PoolId};
use pgp_lines::Format;
use pgp_whole::{CompactMode, Question};
use std::alloc::Global;

/// The greatest number of shards or workers.
const MOST: u8 = 64;

/// The greatest number of a group in its pool.
const MOST_SEED: u16 = 1023;

/// Why the number of an option of `run` is refused.
const WRONG_COUNT: &str = "--shards takes a number from 1 to 64, and --workers one from 0 to 64";

/// Why the word that names a group is refused.
const WRONG_GROUP: &str =
    "PG is POOL.SEED, pool 1 to 255 in decimal, seed 0 to 3ff in hexadecimal; \
the script comes from standard input: pgpeer explain 1.a < FILE";

/// Why the number of `--epoch-offset` is refused.
const WRONG_OFFSET: &str = "--epoch-offset takes a number from 0 to 4294967295";

/// Why `--join` is refused.
const WRONG_JOIN: &str = "--join writes lines of version 3, so it goes with --format 3";

/// Why words are refused that ask for something else than a run.
const NO_RUN: &str = "run is to be the first word";

/// How many shards and workers a run has, and which lines it reads.
#[derive(Clone, Copy, Debug)]
pub struct RunOptions {
    /// 1 to 64. Without workers it has no effect.
    pub shards: u8,
    /// 0 to 64; 0 answers on one thread.
    pub workers: u8,
    /// Up to which version lines are read.
    pub format: Format,
    ghost some: { 1 ≤ shards },
    ghost few_shards: { shards ≤ 64 },
    ghost few_workers: { workers ≤ 64 },
}

/// What the words of a command line ask for.
#[derive(Clone, Copy, Debug)]
pub enum Request {
    /// To answer a script.
    Run(RunOptions),
    /// To explain what a script says of its groups.
    Explain(Question),
    /// To write lines of a script that is compacted.
    Compact(CompactMode),
}

/// Reads the words of a command line that asks for a run. The first word is the program's name.
///
/// A request for help is an error too, and its text belongs on the standard output. A number out of its bounds, or a text
/// that is no number, is [`ErrorKind::ValueValidation`], also a number of shards where there are no workers.
pub fn options(alloc: Global, words: &[String]) -> Result<RunOptions, Error> {
    match read_request(alloc, words)? {
        Request::Run(options) => Ok(options),
        _ => Err(wrong(alloc, "run", ErrorKind::InvalidSubcommand, NO_RUN)?),
    }
}

/// Reads the words of a command line. The first word is the program's name, and the second the subcommand. One command line of
/// clap judges all subcommands, so help names each.
///
/// A request for help is an error too, and its text belongs on the standard output.
pub fn read_request(alloc: Global, words: &[String]) -> Result<Request, Error> {
    let matches = parse(alloc, words)?;
    let (name, request) = match matches.subcommand() {
        Some(("explain", given)) => ("explain", read_explain(given)),
        Some(("compact", given)) => ("compact", read_compact(given)),
        Some((_, given)) => ("run", read_run(given)),
        None => ("run", Err((ErrorKind::MissingSubcommand, NO_RUN))),
    };
    match request {
        Ok(request) => Ok(request),
        Err((kind, why)) => Err(wrong(alloc, name, kind, why)?),
    }
}

/// Of which kind it is that words are refused, and why they are.
type Refusal = (ErrorKind, &'static str);

/// What the words after `run` ask for.
fn read_run(given: &ArgMatches) -> Result<Request, Refusal> {
    let format = format(given.get_str("format"))?;
    let shards = count(given.get_str("shards"), 1)?;
    let workers = count(given.get_str("workers"), 0)?;
    Ok(Request::Run(RunOptions {
        shards,
        workers,
        format,
    }))
}

/// The number that an option of `run` gives, from `least` to 64, which is `least` where the words lack the option.
fn count(text: Option<&str>, least: u8) -> Result<u8, Refusal>
    requires { least ≤ 64 }
    ensures { IfOk result (λ n. (least ≤ n) × (n ≤ 64)) }
{
    match text.map_or(Ok(least), |text| text.parse::<u8>()) {
        Ok(count) if least <= count && count <= MOST => Ok(count),
        _ => Err((ErrorKind::ValueValidation, WRONG_COUNT)),
    }
}

/// The version that `--format` names, or 2.
fn format(text: Option<&str>) -> Result<Format, Refusal>
    ensures { text.entry ≡ None → result ≡ Ok Two }
{
    match text.map_or(Ok(2), |text| text.parse::<u8>()) {
        Ok(2) => Ok(Format::Two),
        Ok(3) => Ok(Format::Three),
        _ => Err((ErrorKind::ValueValidation, "--format takes 2 or 3")),
    }
}

/// What the words after `compact` ask for. With `--join` and no version that is 3.
fn read_compact(given: &ArgMatches) -> Result<Request, Refusal> {
    let join = given.get_flag("join");
    let text = given.get_str("format");
    match format(text)? {
        Format::Two if join && text.is_some() => Err((ErrorKind::ArgumentConflict, WRONG_JOIN)),
        _ if join => Ok(Request::Compact(CompactMode::Joined)),
        format => Ok(Request::Compact(CompactMode::Remaining(format))),
    }
}

/// What the words after `explain` ask for.
fn read_explain(given: &ArgMatches) -> Result<Request, Refusal> {
    let epoch_offset = given
        .get_str("epoch-offset")
        .map_or(Ok(0), |text| text.parse::<u32>())
        .or(Err((ErrorKind::ValueValidation, WRONG_OFFSET)))?;
    let pg = match given.get_str("pg") {
        Some(text) => Some(group(text).ok_or((ErrorKind::ValueValidation, WRONG_GROUP))?),
        None => None,
    };
    Ok(Request::Explain(Question {
        pg,
        losses: given.get_flag("losses"),
        json: given.get_flag("json"),
        epoch_offset,
        format: format(given.get_str("format"))?,
    }))
}

/// The group that the text names as POOL.SEED, each number without a sign; leading zeros are taken.
fn group(text: &str) -> Option<PgId> {
    if text.contains('+') {
        return None;
    }
    let (pool, seed) = text.split_once('.')?;
    let pool = PoolId::new(pool.parse::<u8>().ok()?)?;
    let pg = u16::from_str_radix(seed, 16).ok()?;
    (pg <= MOST_SEED).then_some(PgId { pool, pg })
}
