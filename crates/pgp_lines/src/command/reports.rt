//! The lines of a member's info and of a part of its log. The keys of each are read in ascending byte order, so that the least
//! bad one is told.
ghost use Rattle.std.specs.Prelude.{codes};
ghost use Rattle.pgp_lines.specs.Value.{view};
ghost use Rattle.pgp_lines.specs.LineFault.{IsRead};
ghost use Rattle.pgp_lines.specs.Shapes.{required};
ghost use Rattle.pgp_lines.specs.ReportParts.{name_in, change_in, log_entry_in, log_in};
ghost use Rattle.pgp_lines.specs.Reports.{info_of_line, entries_of_line};

use super::fields::{or_bad_field, read_optional, read_required};
use super::format::{Format, judge_format};
use super::lists::{Plain, Shape, read_list_within, read_quadruple};
use super::members::version_of;
use super::value::Value;
use pgp_ids::{Change, Epoch, Info, LogEntry, ObjectName, Report, Seq, TextFault};
use std::alloc::{AllocError, Global};

/// The info of a line whose keys are known, and which names this version.
pub(super) fn read_info(
    alloc: Global,
    value: &Value<'_, '_>,
    format: Option<Format>,
) -> Result<Info, TextFault>
    ensures { IsRead result (info_of_line format (view value.now)) }
{
    let complete = read_required(alloc, value, "complete")?;
    let member = read_required(alloc, value, "from")?;
    let history_les = read_required(alloc, value, "history_les")?;
    // 0 where the line has no such key.
    let last_epoch_clean = read_optional(alloc, value, "last_epoch_clean", Epoch::new(0))?;
    let last_update = read_required(alloc, value, "last_update")?;
    let les = read_required(alloc, value, "les")?;
    let log_tail = read_required(alloc, value, "log_tail")?;
    let pg = read_required(alloc, value, "pg")?;
    let stamp = read_required(alloc, value, "stamp")?;
    judge_format(alloc, value, format)?;
    Ok(Info {
        pg,
        member,
        stamp,
        les,
        history_les,
        last_epoch_clean,
        last_update,
        log_tail,
        complete,
    })
}

/// How many log entries a line has at most.
const MAX_LOG_ENTRIES: usize = 256;

/// `[epoch, v, "modify" or "delete", name]`.
impl Shape for LogEntry {
    ghost shape = { log_entry_in };

    fn read(alloc: Global, value: &Value<'_, '_>) -> Result<Option<LogEntry>, AllocError> {
        let Some((epoch, v, change, name)) = read_quadruple(value) else {
            return Ok(None);
        };
        let Some(version) = version_of(&epoch, &v) else {
            return Ok(None);
        };
        let Some(change) = Change::from_value(&change) else {
            return Ok(None);
        };
        let object = ObjectName::read(alloc, &name)?;
        Ok(object.map(|object| LogEntry {
            version,
            change,
            object,
        }))
    }
}

/// The log entries of a line whose keys are known, and which names this version.
pub(super) fn read_entries(
    alloc: Global,
    value: &Value<'_, '_>,
    format: Option<Format>,
) -> Result<Report, TextFault>
    ensures { IsRead result (entries_of_line format (view value.now)) }
{
    let member = read_required(alloc, value, "from")?;
    let log = read_log(alloc, value)?;
    let pg = read_required(alloc, value, "pg")?;
    let stamp = read_required(alloc, value, "stamp")?;
    judge_format(alloc, value, format)?;
    Ok(Report {
        pg,
        member,
        stamp,
        log,
    })
}

/// The 1 to 256 log entries that a line must have, or `BadField` of their key.
fn read_log(alloc: Global, value: &Value<'_, '_>) -> Result<Seq<LogEntry>, TextFault>
    ensures { IsRead result (required (codes "log") log_in (view value.now)) }
{
    let found = match value.get("log") {
        Some(log) => read_list_within(alloc, &log, 1, MAX_LOG_ENTRIES)?,
        None => None,
    };
    or_bad_field(alloc, found, "log")
}

impl Plain for Change {
    ghost plain = { change_in };

    fn from_value(value: &Value<'_, '_>) -> Option<Change> {
        match value.as_str()? {
            "modify" => Some(Change::Modify),
            "delete" => Some(Change::Delete),
            _ => None,
        }
    }
}

/// The name of an object: 1 to 255 bytes of UTF-8.
impl Shape for ObjectName {
    ghost shape = { name_in };

    fn read(alloc: Global, value: &Value<'_, '_>) -> Result<Option<ObjectName>, AllocError> {
        let Some(name) = value.as_str() else {
            return Ok(None);
        };
        ObjectName::new(alloc, name)
    }
}
