//! The line of a map incremental.
ghost use Rattle.pgp_lines.specs.Value.{view};
ghost use Rattle.pgp_lines.specs.LineFault.{IsRead, PutsRead};
ghost use Rattle.pgp_lines.specs.Incremental.{with_down, with_pools, with_up, inc_of_line};

use super::fields::{read_optional, read_required};
use super::format::{Format, judge_at, judge_format, read_in};
use super::value::Value;
use pgp_ids::{Epoch, Incremental, Seq, TextFault};
use std::alloc::Global;

/// The incremental of a line whose keys are known, and which names this version. They are read in ascending byte order, so
/// that the least bad one is told. One function of all fourteen steps takes the prover longer than these four.
pub(super) fn read_inc(
    alloc: Global,
    value: &Value<'_, '_>,
    last: Format,
    format: Option<Format>,
) -> Result<Incremental, TextFault>
    ensures { IsRead result (inc_of_line last format (view value.now)) }
{
    let read_as = read_in(last, format);
    let mut inc = Incremental::empty(alloc, Epoch::new(0), Epoch::new(0));
    let after = read_optional(alloc, value, "after", None)?;
    put_down(alloc, value, read_as, after, &mut inc)?;
    put_pools(alloc, value, read_as, &mut inc)?;
    put_up(alloc, value, format, &mut inc)?;
    Ok(inc)
}

/// Puts in the tree, the epochs and the devices that go, in a line of this version. Where it names no map that it changes,
/// that is the one of the epoch before its own.
fn put_down(
    alloc: Global,
    value: &Value<'_, '_>,
    format: Format,
    after: Option<Epoch>,
    inc: &mut Incremental,
) -> Result<(), TextFault>
    ensures { PutsRead result (with_down format after inc.old (view value.now)) inc.new }
{
    inc.crush = read_optional(alloc, value, "crush", None)?;
    judge_at(alloc, value, "crush", format.has_tree(&inc.crush))?;
    inc.down = read_optional(alloc, value, "down", Seq::new(alloc))?;
    inc.epoch = read_required(alloc, value, "epoch")?;
    inc.after = after.unwrap_or(inc.epoch.before());
    inc.gone = read_optional(alloc, value, "gone", Seq::new(alloc))?;
    inc.lost = read_optional(alloc, value, "lost", Seq::new(alloc))?;
    Ok(())
}

/// Puts in pools and groups, in a line of this version.
fn put_pools(
    alloc: Global,
    value: &Value<'_, '_>,
    format: Format,
    inc: &mut Incremental,
) -> Result<(), TextFault>
    ensures { PutsRead result (with_pools format inc.old (view value.now)) inc.new }
{
    inc.pools = read_optional(alloc, value, "pools", Seq::new(alloc))?;
    judge_at(
        alloc,
        value,
        "pools",
        format.has_pools(inc.pools.as_slice()),
    )?;
    inc.sizes = read_optional(alloc, value, "sizes", Seq::new(alloc))?;
    inc.temp = read_optional(alloc, value, "temp", Seq::new(alloc))?;
    Ok(())
}

/// Puts in the devices that come, or go on. `v` stands among their keys.
fn put_up(
    alloc: Global,
    value: &Value<'_, '_>,
    format: Option<Format>,
    inc: &mut Incremental,
) -> Result<(), TextFault>
    ensures { PutsRead result (with_up format inc.old (view value.now)) inc.new }
{
    inc.up = read_optional(alloc, value, "up", Seq::new(alloc))?;
    inc.up_thru = read_optional(alloc, value, "up_thru", Seq::new(alloc))?;
    judge_format(alloc, value, format)?;
    inc.weight = read_optional(alloc, value, "weight", Seq::new(alloc))?;
    Ok(())
}
