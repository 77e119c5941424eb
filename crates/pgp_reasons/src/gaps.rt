//! The numbers of writes that a member's log lacks.

ghost use Rattle.std.specs.Prelude.{◌≡◌, ◌+◌, ◌++◌, nat_eq, nat_lt, map as mapped, IfOk, OnOk};
ghost use Rattle.std.specs.Arc.{arc_value};
ghost use Rattle.std.specs.List.{list_any};
ghost use Rattle.std.specs.Option.{option_copied};
ghost use Rattle.pgp_lists.specs.Ordered.{IsAscending, ascending, with_items};
ghost use Rattle.pgp_missing.specs.Log.{number_of};
ghost use Rattle.pgp_group.specs.GroupLog.{GroupLog};
ghost use Rattle.pgp_group.specs.Heard.{reported};
ghost use Rattle.pgp_group.specs.Present.{IsPresent};
ghost use Rattle.pgp_group.specs.Peering.{best as best_copy};
ghost use Rattle.pgp_reasons.specs.Gaps.{runs_of, numbers_above, runs_lacked};
ghost use Rattle.pgp_reasons.specs.Reasons.{gaps};

use super::gap::Gap;
use super::reported::entries_in;
use pgp_ids::{Entry, Epoch, Info, LogEntry, Member, PgId, Seq};
use pgp_lists::insert_in_order;
use pgp_map::OsdMap;
use std::alloc::{AllocError, Global};
use std::sync::Arc;

/// The numbers of writes that the log of the group's best copy lacks, which has this info; none if there is no best copy.
pub(crate) fn gaps(
    alloc: Global,
    map: &OsdMap,
    entries: &[Arc<Entry>],
    pg: &PgId,
    first: Epoch,
    best: Option<&Info>,
) -> Result<Seq<Gap>, AllocError>
    ensures { IfOk result (λ list. (g : GroupLog) → g.log ≡ mapped arc_value entries.now → g.pg ≡ pg.now → IsPresent g map.now first
        → option_copied best.entry ≡ best_copy g → list ≡ gaps g) }
{
    let Some(info) = best else {
        return Ok(Seq::new(alloc));
    };
    let numbers = reported_numbers(alloc, map, entries, pg, first, &info.member)?;
    runs_beside(
        alloc,
        numbers.as_slice(),
        info.log_tail.v,
        info.last_update.v,
    )
}

/// The numbers of the log entries in the member's reports that count, in ascending order, each once.
fn reported_numbers(
    alloc: Global,
    map: &OsdMap,
    entries: &[Arc<Entry>],
    pg: &PgId,
    first: Epoch,
    member: &Member,
) -> Result<Seq<u32>, AllocError>
    ensures numbers { IfOk result (λ numbers. (g : GroupLog) → g.log ≡ mapped arc_value entries.now → g.pg ≡ pg.now → IsPresent g map.now first
        → numbers ≡ ascending nat_lt (mapped number_of (reported g member.now))) }
    ensures order { IfOk result (λ numbers. IsAscending nat_lt numbers) }
{
    let mut numbers = Vec::new(alloc);
    for entry in entries {
        add_numbers(&mut numbers, entries_in(entry, map, pg, first, member))?;
    }
    Ok(Seq::from_vec(numbers))
}

/// Adds the numbers of these log entries.
fn add_numbers(numbers: &mut Vec<u32>, log: &[LogEntry]) -> Result<(), AllocError>
    requires { IsAscending nat_lt numbers.old.items }
    ensures added { OnOk result (numbers.new.items ≡ with_items nat_lt (mapped number_of log.now) numbers.old.items) }
    ensures order { OnOk result (IsAscending nat_lt numbers.new.items) }
{
    for entry in log {
        insert_in_order(numbers, entry.version.v)?;
    }
    Ok(())
}

/// The numbers above `tail` up to `last` that aren't among these, as runs.
fn runs_beside(alloc: Global, numbers: &[u32], tail: u32, last: u32) -> Result<Seq<Gap>, AllocError>
    requires { IsAscending nat_lt numbers.now }
    ensures { IfOk result (λ list. list ≡ runs_lacked (λ v. list_any (nat_eq v) numbers.now) tail last) }
{
    let mut gaps = Vec::new(alloc);
    let mut reached = tail;
    for number in numbers {
        if reached < *number && *number <= last {
            add_run(&mut gaps, reached, *number - 1)?;
            reached = *number;
        }
    }
    add_run(&mut gaps, reached, last)?;
    Ok(Seq::from_vec(gaps))
}

/// Adds the numbers above `after` up to `last`, if there are any.
fn add_run(gaps: &mut Vec<Gap>, after: u32, last: u32) -> Result<(), AllocError>
    ensures { OnOk result (gaps.new.items ≡ gaps.old.items ++ runs_of (numbers_above after last)) }
{
    if after < last {
        gaps.push(Gap {
            first: after + 1,
            last,
        })?;
    }
    Ok(())
}
