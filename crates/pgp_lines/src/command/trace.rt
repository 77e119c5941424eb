//! The line of a trace: a code, and the epochs of one group.
ghost use Rattle.std.specs.Prelude.{◌≡◌, map, codes, IfOk};
ghost use Rattle.pgp_lines.specs.Value.{view};
ghost use Rattle.pgp_lines.specs.LineFault.{IsRead};
ghost use Rattle.pgp_lines.specs.Command.{trace_of_line};
ghost use Rattle.pgp_lines.specs.Shapes.{field};
ghost use Rattle.pgp_lines.specs.Trace.{code_keys, is_code, code_in, osds_in, epoch_state_in, epochs_in};

use super::Command;
use super::fields::{or_bad_field, read_at};
use super::format::{Format, judge_format, read_in};
use super::numbers::{read_number, read_place};
use super::objects::has_only;
use super::pools::read_kind;
use super::trail::Wanted;
use super::value::Value;
use pgp_ids::{EpochState, Membership, Osds, PoolKind, PrimaryFacts, Seq, TextFault};
use std::alloc::{AllocError, Global};

const EPOCH_KEYS: [&str; 6] = ["acting", "min_size", "size", "up", "up_from", "up_thru"];

/// How many epochs a trace has at most.
pub const MAX_EPOCHS: usize = 4096;

/// The size of the largest group, and so the most data shards that a code has.
const MAX_SIZE: u8 = 16;

/// The values of a trace, `code` first: whether a place may be empty depends on it.
pub(super) fn read_trace(
    alloc: Global,
    value: &Value<'_, '_>,
    last: Format,
    format: Option<Format>,
) -> Result<Command, TextFault>
    ensures { IsRead result (trace_of_line last format (view value.now)) }
{
    let found = read_code(value, read_in(last, format));
    let code = or_bad_field(alloc, found, "code")?;
    let found = match value.get("epochs") {
        Some(epochs) => read_epochs(alloc, &epochs, code.is_by_place())?,
        None => None,
    };
    let epochs = or_bad_field(alloc, found, "epochs")?;
    judge_format(alloc, value, format)?;
    Ok(Command::Trace { code, epochs })
}

/// The code of a trace in this version: `{"kind":"replicated"}`, `{"k":1,"kind":"erasure"}` with 1 to 16 data shards, or
/// `{"groups":[[[0],1]],"kind":"grouped"}` with parts that a pool of size 16 can have.
fn read_code(value: &Value<'_, '_>, format: Format) -> Option<PoolKind>
    ensures { result ≡ field (codes "code") (code_in format) (view value.now) }
{
    let code = value.get("code")?;
    let kind = read_kind(&code)?;
    if !has_only(&code, code_keys(&kind)) {
        return None;
    }
    code.look(Wanted::Words("what a trace of its version can have"));
    (is_code(&kind) && format.has_kind(&kind)).then_some(kind)
}

/// The keys of a code's object, in ascending byte order.
fn code_keys(kind: &PoolKind) -> &'static [&'static str]
    ensures { map (λ k. k.now) result.now ≡ code_keys kind.now }
{
    match kind {
        PoolKind::Replicated => &["kind"],
        PoolKind::Erasure { .. } => &["k", "kind"],
        PoolKind::Grouped { .. } => &["groups", "kind"],
    }
}

/// Whether a trace can have this code.
fn is_code(kind: &PoolKind) -> bool
    ensures { result ≡ is_code kind.now }
{
    match kind {
        PoolKind::Replicated => true,
        PoolKind::Erasure { k } => 1 <= *k && *k <= MAX_SIZE,
        PoolKind::Grouped { groups } => groups.are_of_size(MAX_SIZE),
    }
}

/// At most 16 places. The bound is judged as the list is walked: a longer one is refused after its first 16 were read.
fn read_osds(value: &Value<'_, '_>, nulls: bool) -> Option<Osds>
    ensures { result ≡ osds_in nulls (view value.now) }
{
    let mut places = value.items()?;
    let mut osds = Osds::new();
    while let Some(place) = places.next() {
        if osds.is_full() {
            return None;
        }
        osds.push(read_place(&place, nulls)?);
    }
    Some(osds)
}

/// One epoch: an object with all of [`EPOCH_KEYS`] and no other key. It has 1 to 16 members and may serve with 1 to all of them;
/// each primary is the first device of its list.
fn read_epoch_state(value: &Value<'_, '_>, nulls: bool) -> Option<EpochState>
    ensures { result ≡ epoch_state_in nulls (view value.now) }
{
    if !has_only(value, &EPOCH_KEYS) {
        return None;
    }
    let up_from = read_at(value, "up_from")?;
    let up_thru = read_at(value, "up_thru")?;
    let size = read_number(&value.get("size")?, 1, u64::from(MAX_SIZE))?;
    let min_size = read_number(&value.get("min_size")?, 1, size)?;
    let up = read_osds(&value.get("up")?, nulls)?;
    let acting = read_osds(&value.get("acting")?, nulls)?;
    Some(EpochState {
        members: Membership {
            up_primary: up.first(),
            up,
            acting_primary: acting.first(),
            acting,
            size: size as u8,
            min_size: min_size as u8,
        },
        facts: PrimaryFacts { up_from, up_thru },
    })
}

/// The 1 to 4,096 epochs of a trace, the first of which is epoch 1. The bound is judged as the list is walked: a longer
/// one is refused after its first 4,096 were read. An `Err` means out of memory.
fn read_epochs(
    alloc: Global,
    value: &Value<'_, '_>,
    nulls: bool,
) -> Result<Option<Seq<EpochState>>, AllocError>
    ensures { IfOk result (λ found. found ≡ epochs_in nulls (view value.now)) }
{
    let Some(mut items) = value.items() else {
        return Ok(None);
    };
    let mut states = Seq::new(alloc);
    while let Some(item) = items.next() {
        if states.len() >= MAX_EPOCHS {
            return Ok(None);
        }
        match read_epoch_state(&item, nulls) {
            Some(state) => states.push(state)?,
            None => return Ok(None),
        }
    }
    if states.is_empty() {
        return Ok(None);
    }
    Ok(Some(states))
}
