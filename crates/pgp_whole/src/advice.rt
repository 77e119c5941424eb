//! What there is to say of a group, and what would end its waiting.

ghost use Rattle.std.specs.Prelude.{◌≡◌, Some, None, map as mapped, IfOk, IfSome, IfNone};
ghost use Rattle.pgp_reasons.specs.GroupWays.{lost_at_epoch};
ghost use Rattle.pgp_group.specs.View.{scratch};
ghost use Rattle.pgp_whole.specs.Advice.{AreOutcomes, AreResorts, IsAdvice, IsAfterWay, IsOutcomeOfChoice, IsToldBy, choice_of, next_epoch, way_inc};
ghost use Rattle.pgp_whole.specs.Explained.{IsExplainedBy};

use super::choice::{Choice, copy, resorts, starts, told_sets};
use pgp_core::Log;
use pgp_group_words::{Advice, EpochOffset, Explanation, Outcome, Then};
use pgp_ids::{DeviceEpoch, Entry, Epoch, Incremental, OsdId, PgId, Seq, View};
use pgp_reasons::{price_of, reasons_of};
use std::alloc::{AllocError, Global};

/// What there is to say of a group by the log, with ways that declare devices lost where these are wanted. None where the map has
/// no such group.
///
/// The outcome of a way is by the log with one entry more, which a log of its own takes.
pub(crate) fn advice_of(
    alloc: Global,
    log: &mut Log,
    pg: &PgId,
    losses: bool,
    offset: EpochOffset,
) -> Result<Option<Advice>, AllocError>
    ensures some { IfOk result (λ found. IfSome found (IsAdvice log.old pg.now losses offset)) }
    ensures none { IfOk result (λ found. IfNone found (scratch log.old pg.now ≡ None)) }
    ensures same { log.new ≡ log.old }
{
    let Some(explanation) = explanation_of(alloc, log, pg)? else {
        return Ok(None);
    };
    let view = &explanation.view;
    let sets = told_sets(alloc, &explanation.reasons.ways)?;
    let sets = sets.as_slice();
    let choices = starts(alloc, sets)?;
    let ways = outcomes_of(alloc, log, pg, view, choices.as_slice(), offset)?;
    let last_resort = resorts_of(alloc, log, pg, view, sets, losses, offset)?;
    Ok(Some(Advice {
        explanation,
        ways,
        last_resort,
    }))
}

/// The view of a group by the log, the reasons for its verdict, and its pool. None where the map has no such group.
fn explanation_of(
    alloc: Global,
    log: &mut Log,
    pg: &PgId,
) -> Result<Option<Explanation>, AllocError>
    ensures some { IfOk result (λ found. IfSome found (IsExplainedBy log.old pg.now)) }
    ensures none { IfOk result (λ found. IfNone found (scratch log.old pg.now ≡ None)) }
    ensures same { log.new ≡ log.old }
{
    let Some(pool) = log.map().pool(pg.pool) else {
        return Ok(None);
    };
    let Some(view) = log.ask(*pg)? else {
        return Ok(None);
    };
    let reasons = reasons_of(alloc, log.map(), log.entries(), *pg, &view)?;
    Ok(Some(Explanation {
        pg: *pg,
        pool,
        view,
        reasons,
    }))
}

/// The ways that declare devices of these sets lost, where these are wanted.
fn resorts_of(
    alloc: Global,
    log: &Log,
    pg: &PgId,
    view: &View,
    sets: &[Seq<OsdId>],
    losses: bool,
    offset: EpochOffset,
) -> Result<Option<Seq<Outcome>>, AllocError>
    ensures { IfOk result (λ ways. scratch log.now pg.now ≡ Some view.now → AreResorts losses log.now pg.now offset sets.now ways) }
{
    if !losses {
        return Ok(None);
    }
    let choices = resorts(alloc, sets)?;
    let outcomes = outcomes_of(alloc, log, pg, view, choices.as_slice(), offset)?;
    Ok(Some(outcomes))
}

/// The outcomes of these choices.
fn outcomes_of(
    alloc: Global,
    log: &Log,
    pg: &PgId,
    view: &View,
    choices: &[Choice],
    offset: EpochOffset,
) -> Result<Seq<Outcome>, AllocError>
    ensures { IfOk result (λ outcomes. scratch log.now pg.now ≡ Some view.now → AreOutcomes log.now pg.now offset choices.now outcomes) }
{
    let mut outcomes = Seq::new(alloc);
    for choice in choices {
        let outcome = outcome_of(alloc, log, pg, view, choice, offset)?;
        outcomes.push(outcome)?;
    }
    Ok(outcomes)
}

/// What the group is after a choice, and what that costs.
fn outcome_of(
    alloc: Global,
    log: &Log,
    pg: &PgId,
    view: &View,
    choice: &Choice,
    offset: EpochOffset,
) -> Result<Outcome, AllocError>
    ensures choice { IfOk result (λ outcome. choice_of outcome ≡ choice.now) }
    ensures is { IfOk result (λ outcome. scratch log.now pg.now ≡ Some view.now → IsOutcomeOfChoice log.now pg.now offset outcome) }
{
    let starts = choice.starts.as_slice();
    let losses = choice.losses.as_slice();
    let price = price_of(alloc, log.map(), *pg, view, starts, losses)?;
    let after = after_way(alloc, log, pg, starts, losses, offset)?;
    Ok(Outcome {
        starts: copy(alloc, starts)?,
        losses: copy(alloc, losses)?,
        after,
        price,
    })
}

/// What there is to say of the group once these devices booted and those were declared lost. None where the log takes no
/// entry that tells so.
fn after_way(
    alloc: Global,
    log: &Log,
    pg: &PgId,
    starts: &[OsdId],
    losses: &[OsdId],
    offset: EpochOffset,
) -> Result<Option<Then>, AllocError>
    ensures { IfOk result (IsAfterWay log.now pg.now offset starts.now losses.now) }
{
    let inc = incremental(alloc, next(log.map().epoch()), starts, losses)?;
    let mut after = Log::over(alloc, log.entries())?;
    match after.take_if_fits(Entry::Inc(inc))? {
        Some(_) => Ok(None),
        None => told_of(alloc, &mut after, pg, offset),
    }
}

/// What there is to say of the group by the log, after a way.
fn told_of(
    alloc: Global,
    log: &mut Log,
    pg: &PgId,
    offset: EpochOffset,
) -> Result<Option<Then>, AllocError>
    ensures { IfOk result (IsToldBy log.old pg.now offset) }
{
    match explanation_of(alloc, log, pg)? {
        Some(explanation) => Ok(Some(Then::of(alloc, &explanation, offset)?)),
        None => Ok(None),
    }
}

/// The epoch after this one; the last one itself.
fn next(epoch: Epoch) -> Epoch
    ensures { result ≡ next_epoch epoch }
{
    Epoch::new(epoch.number().saturating_add(1))
}

/// The incremental to this epoch that boots these devices and declares those lost.
fn incremental(
    alloc: Global,
    epoch: Epoch,
    starts: &[OsdId],
    losses: &[OsdId],
) -> Result<Incremental, AllocError>
    ensures { IfOk result (λ inc. inc ≡ way_inc epoch starts.now losses.now) }
{
    let mut inc = Incremental::empty(alloc, epoch.before(), epoch);
    inc.up = copy(alloc, starts)?;
    inc.lost = lost_at(alloc, epoch, losses)?;
    Ok(inc)
}

/// The devices, each lost at this epoch.
fn lost_at(alloc: Global, epoch: Epoch, osds: &[OsdId]) -> Result<Seq<DeviceEpoch>, AllocError>
    ensures { IfOk result (λ lost. lost ≡ mapped (lost_at_epoch epoch) osds.now) }
{
    let mut lost = Seq::new(alloc);
    for osd in osds {
        lost.push(DeviceEpoch { osd: *osd, epoch })?;
    }
    Ok(lost)
}
