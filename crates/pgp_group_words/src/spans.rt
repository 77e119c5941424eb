//! Runs of epochs and of writes in words.

ghost use Rattle.std.specs.Prelude.{◌≡◌, map, IfOk, OnOk, string_bytes};
ghost use Rattle.pgp_group_words.specs.Spans.{epochs_name, epochs_of as reported_epochs, interval_epochs, numbers_name, run_of_writes as run_of_gap, runs_name, span_name, then_run, writes_name};

use super::offset::EpochOffset;
use super::page::{InWords, Page};
use pgp_reasons::{Blocking, Gap, IntervalNow};
use std::alloc::{AllocError, Global};

/// How many runs a sentence names at most.
const MOST_NAMED: usize = 5;

/// A run of numbers, from the first to the last.
#[derive(Clone, Copy)]
pub(crate) struct Span {
    first: u64,
    last: u64,
}

/// A number alone, or the first and the last of a run.
impl InWords for Span {
    ghost words = { λ _ run. span_name run };

    fn put(&self, page: &mut Page) -> Result<(), AllocError> {
        if self.first == self.last {
            write!(page, "{}", self.first)
        } else {
            write!(page, "{} to {}", self.first, self.last)
        }
    }
}

/// The epochs of an interval.
fn epochs_of(interval: &IntervalNow, offset: EpochOffset) -> Span
    ensures { result ≡ reported_epochs offset interval.now }
{
    Span {
        first: offset.cluster_epoch(interval.first),
        last: offset.cluster_epoch(interval.last),
    }
}

/// Makes the last run longer where the next one follows upon it, and else appends it.
#[tactic(auto, using(crate::proofs::SpanLemmas::run_steps))]
fn join(runs: &mut Vec<Span>, next: Span) -> Result<(), AllocError>
    ensures { OnOk result (runs.new.items ≡ then_run runs.old.items next) }
{
    let Some(run) = runs.pop() else {
        runs.push(next)?;
        return Ok(());
    };
    if next.first > run.last && next.first - run.last == 1 {
        runs.push(Span {
            first: run.first,
            last: next.last,
        })?;
    } else {
        runs.push(run)?;
        runs.push(next)?;
    }
    Ok(())
}

/// The writes that a log lacks.
fn runs_of_writes(alloc: Global, gaps: &[Gap]) -> Result<Vec<Span>, AllocError>
    ensures { IfOk result (λ runs. runs.items ≡ map run_of_gap gaps.now) }
{
    gaps.iter()
        .map(|gap| Span {
            first: u64::from(gap.first),
            last: u64::from(gap.last),
        })
        .collect(alloc)
}

impl Page {
    /// The epochs of intervals, which are in ascending order, in a sentence; those that follow one upon another are one run.
    #[tactic(auto, unfolding(crate::specs::Spans::runs_of_epochs))]
    pub fn epochs(&self, intervals: &[Blocking]) -> Result<String, AllocError>
        ensures { IfOk result (λ text. string_bytes text ≡ epochs_name self.now.naming.offset intervals.now) }
    {
        let mut runs = Vec::new(self.alloc());
        for blocking in intervals {
            join(&mut runs, epochs_of(&blocking.interval, self.naming.offset))?;
        }
        self.runs("epoch", runs.as_slice())
    }

    /// The epochs of an interval in a sentence.
    pub fn epochs_in(&self, interval: &IntervalNow) -> Result<String, AllocError>
        ensures { IfOk result (λ text. string_bytes text ≡ interval_epochs self.now.naming.offset interval.now) }
    {
        self.runs("epoch", &[epochs_of(interval, self.naming.offset)])
    }

    /// The writes that a log lacks in a sentence.
    pub fn writes(&self, gaps: &[Gap]) -> Result<String, AllocError>
        ensures { IfOk result (λ text. string_bytes text ≡ writes_name gaps.now) }
    {
        let runs = runs_of_writes(self.alloc(), gaps)?;
        self.runs("write", runs.as_slice())
    }

    /// Runs of this noun in a sentence: `epoch 7`, `epochs 1 to 3 and 5`.
    #[tactic(auto, unfolding(crate::specs::Spans::runs_name))]
    fn runs(&self, noun: &str, runs: &[Span]) -> Result<String, AllocError>
        ensures { IfOk result (λ text. string_bytes text ≡ runs_name noun.now runs.now) }
    {
        let numbers = self.numbers(runs)?;
        let plural = match runs {
            [run] if run.first == run.last => " ",
            _ => "s ",
        };
        format!(in self.alloc(); "{noun}{plural}{numbers}")
    }

    /// The runs by their numbers. Where there are many, the first are named.
    fn numbers(&self, runs: &[Span]) -> Result<String, AllocError>
        ensures { IfOk result (λ text. string_bytes text ≡ numbers_name runs.now) }
    {
        if runs.len() > MOST_NAMED {
            let named = self.listed(&runs[..MOST_NAMED], ", ")?;
            format!(in self.alloc(); "{named}, and later ones")
        } else {
            self.list(runs)
        }
    }
}
