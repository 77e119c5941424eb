//! A part of a member's log, as C gives it.

ghost use Rattle.std.specs.Prelude.{◌≡◌};
ghost use Rattle.std.specs.List.{list_all};
ghost use Rattle.std.specs.Str.{is_utf8};
ghost use Rattle.pgp_c.specs.Report.{IsReportMade, SubmitsReport, given_log_entry, given_name, is_log_entry};

use super::ask::group_of;
use super::each::{OfC, each_of};
use super::info::{member_of, version_of};
use super::locate::name_of;
use super::status::Status;
use super::submit::tell;
use pgp_core::Session;
use pgp_ids::{Change, Entry, Epoch, LogEntry, Report};
use std::alloc::Global;
use std::str::from_utf8;

/// How many log entries a report has at most.
const MAX_LOG_ENTRIES: usize = 256;

/// Whose log a part of a log is of.
#[repr(C)]
pub struct PgpReport {
    /// 1 to 255.
    pub pool: u32,
    /// 0 to 1,023.
    pub pg: u32,
    /// The device that sent it, 0 to 4,095.
    pub osd: u32,
    /// Its slot, 0 to 15.
    pub slot: u32,
    /// The sender's epoch.
    pub stamp: u32,
}

/// An entry of a member's log: a write of an object.
#[repr(C)]
pub struct PgpLogEntry {
    /// The epoch and the number of the write.
    pub epoch: u32,
    pub number: u32,
    /// 1 where it deletes the object, 0 where it makes or changes it.
    pub deletes: u8,
    /// How many bytes the name has, 1 to 255.
    pub name_length: u8,
    /// The name, in UTF-8.
    pub name: [u8; 255],
}

/// Adds a part of a member's log to the session's log.
pub fn submit_entries(
    alloc: Global,
    session: &mut Session,
    report: &PgpReport,
    log: &[PgpLogEntry],
) -> u32
    ensures { SubmitsReport session.old session.new report.now log.now result }
{
    match report_of(alloc, report, log) {
        Ok(report) => tell(session, Entry::Entries(report)),
        Err(status) => status.number(),
    }
}

/// The part of a log with these numbers and names, if each is in its range. Only then it may be out of memory.
fn report_of(alloc: Global, report: &PgpReport, log: &[PgpLogEntry]) -> Result<Report, Status>
    ensures { IsReportMade result report.now log.now }
{
    let pg = group_of(report.pool, report.pg).ok_or(Status::BadArgument)?;
    let member = member_of(report.osd, report.slot).ok_or(Status::BadArgument)?;
    if log.is_empty() || log.len() > MAX_LOG_ENTRIES || !are_log_entries(log) {
        return Err(Status::BadArgument);
    }
    Ok(Report {
        pg,
        member,
        stamp: Epoch::new(report.stamp),
        log: each_of(alloc, log)?,
    })
}

/// Each has the numbers and the name of a log entry.
fn are_log_entries(log: &[PgpLogEntry]) -> bool
    ensures { result ≡ list_all is_log_entry log.now }
{
    log.iter().all(|entry| is_log_entry(entry))
}

/// It has the numbers and the name of a log entry.
fn is_log_entry(entry: &PgpLogEntry) -> bool
    ensures { result ≡ is_log_entry entry.now }
{
    entry.deletes <= 1 && entry.name_length >= 1 && is_text(name_bytes(entry))
}

/// The bytes are UTF-8.
fn is_text(bytes: &[u8]) -> bool
    ensures { result ≡ is_utf8 bytes.now }
{
    match from_utf8(bytes) {
        Ok(_) => true,
        Err(_) => false,
    }
}

/// The bytes of the name.
fn name_bytes(entry: &PgpLogEntry) -> &[u8]
    ensures { result.now ≡ given_name entry.now }
{
    &entry.name[..usize::from(entry.name_length)]
}

impl OfC<PgpLogEntry> for LogEntry {
    ghost of_c = { given_log_entry };

    fn of_c(alloc: Global, given: &PgpLogEntry) -> Result<LogEntry, Status> {
        let change = match given.deletes {
            0 => Change::Modify,
            1 => Change::Delete,
            _ => return Err(Status::BadArgument),
        };
        Ok(LogEntry {
            version: version_of(given.epoch, given.number),
            change,
            object: name_of(alloc, name_bytes(given))?,
        })
    }
}
