//! The operations, in one table: the name of each, the keys that its line may have, and what reads the values at them.

ghost use Rattle.std.specs.Prelude.{◌≡◌, Ok, map};
ghost use Rattle.pgp_lines.specs.Value.{view};
ghost use Rattle.pgp_lines.specs.LineFault.{IsRead};
ghost use Rattle.pgp_lines.specs.Op.{entry_op, op_keys, op_name, op_named};
ghost use Rattle.pgp_lines.specs.Command.{values_of};

use super::Command;
use super::fields::read_required;
use super::format::{Format, judge_format};
use super::incremental::read_inc;
use super::reports::{read_entries, read_info};
use super::trace::read_trace;
use super::value::Value;
use pgp_ids::{Entry, TextFault};
use std::alloc::Global;

/// What a line asks to be done. Each operation has its own keys.
#[derive(Clone, Copy)]
pub enum Op {
    Ask,
    Close,
    Entries,
    Inc,
    Info,
    Locate,
    Trace,
}

impl Op {
    /// The operation of the line that an entry is.
    pub fn of(entry: &Entry) -> Op
        ensures { result ≡ entry_op entry.now }
    {
        match entry {
            Entry::Inc(_) => Op::Inc,
            Entry::Info(_) => Op::Info,
            Entry::Entries(_) => Op::Entries,
            Entry::Close => Op::Close,
        }
    }

    /// The operation of this name.
    pub fn named(name: &str) -> Option<Op>
        ensures { result ≡ op_named name.now }
    {
        match name {
            "ask" => Some(Op::Ask),
            "close" => Some(Op::Close),
            "entries" => Some(Op::Entries),
            "inc" => Some(Op::Inc),
            "info" => Some(Op::Info),
            "locate" => Some(Op::Locate),
            "trace" => Some(Op::Trace),
            _ => None,
        }
    }

    /// Its name in lines and in answers.
    pub fn name(self) -> &'static str
        ensures { result.now ≡ op_name self }
    {
        match self {
            Op::Ask => "ask",
            Op::Close => "close",
            Op::Entries => "entries",
            Op::Inc => "inc",
            Op::Info => "info",
            Op::Locate => "locate",
            Op::Trace => "trace",
        }
    }

    /// The keys that its line may have in this version, in ascending byte order.
    pub fn keys(self, format: Format) -> &'static [&'static str]
        ensures { map (λ k. k.now) result.now ≡ op_keys format self }
    {
        match self {
            Op::Ask => &["op", "pg", "v"],
            Op::Close => &["op", "v"],
            Op::Entries => &["from", "log", "op", "pg", "stamp", "v"],
            Op::Inc if format.has_after() => INC_KEYS,
            Op::Inc => &INC_KEYS[1..],
            Op::Info => &[
                "complete",
                "from",
                "history_les",
                "last_epoch_clean",
                "last_update",
                "les",
                "log_tail",
                "op",
                "pg",
                "stamp",
                "v",
            ],
            Op::Locate => &["name", "op", "pool", "v"],
            Op::Trace => &["code", "epochs", "op", "v"],
        }
    }

    /// The command of its line, past the judgement of the line's keys; the line names the version `format`, and lines up to
    /// the version `last` are read.
    pub(super) fn read(
        self,
        alloc: Global,
        value: &Value<'_, '_>,
        last: Format,
        format: Option<Format>,
    ) -> Result<Command, TextFault>
        ensures { IsRead result (values_of self last format (view value.now)) }
    {
        match self {
            Op::Ask => {
                let pg = read_required(alloc, value, "pg")?;
                judge_format(alloc, value, format)?;
                Ok(Command::Ask(pg))
            }
            Op::Close => {
                judge_format(alloc, value, format)?;
                Ok(Command::Submit(Entry::Close))
            }
            Op::Entries => Ok(Command::Submit(Entry::Entries(read_entries(alloc, value, format)?))),
            Op::Inc => Ok(Command::Submit(Entry::Inc(read_inc(alloc, value, last, format)?))),
            Op::Info => Ok(Command::Submit(Entry::Info(read_info(alloc, value, format)?))),
            Op::Locate => {
                let name = read_required(alloc, value, "name")?;
                let pool = read_required(alloc, value, "pool")?;
                judge_format(alloc, value, format)?;
                Ok(Command::Locate { pool, name })
            }
            Op::Trace => read_trace(alloc, value, last, format),
        }
    }
}

/// The keys that the line of an incremental may have in the last version; the others have all but the first.
const INC_KEYS: &[&str] = &[
    "after", "crush", "down", "epoch", "gone", "lost", "op", "pools", "sizes", "temp", "up",
    "up_thru", "v", "weight",
];
