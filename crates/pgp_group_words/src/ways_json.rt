//! Ways to end that a group is down, as JSON.

ghost use Rattle.pgp_text.specs.Json.{option_data};
ghost use Rattle.pgp_group_words.specs.Json.{any_data, any_of, outcome_data, then_data, ways_data};

use super::advice::Advice;
use super::offset::EpochOffset;
use super::outcome::{Outcome, Then};
use super::ways_words::may_be_more;
use json::Writer;
use pgp_reasons::{AnyOf, Ways};
use pgp_text::{Json, write_field};
use std::alloc::AllocError;

/// The ways that only start devices.
impl Json<EpochOffset> for Advice {
    ghost value = { ways_data };

    #[tactic(auto, using(pgp_text::proofs::Tokens::token_steps))]
    fn write(&self, out: &mut Writer, offset: EpochOffset) -> Result<(), AllocError> {
        let ways = &self.explanation.reasons.ways;
        out.begin_object()?;
        write_field(out, offset, "any", ways)?;
        write_field(out, offset, "more", &may_be_more(ways))?;
        write_field(out, offset, "sets", &self.ways)?;
        out.end_object()
    }
}

/// Any so many of which devices are enough, if it is so.
impl Json<EpochOffset> for Ways {
    ghost value = { λ _ ways. option_data any_data (any_of ways) };

    fn write(&self, out: &mut Writer, offset: EpochOffset) -> Result<(), AllocError> {
        match self {
            Ways::Any(any) => any.write(out, offset),
            Ways::Listed(_) => out.null(),
        }
    }
}

impl Json<EpochOffset> for AnyOf {
    ghost value = { λ _ any. any_data any };

    #[tactic(auto, using(pgp_text::proofs::Tokens::token_steps))]
    fn write(&self, out: &mut Writer, offset: EpochOffset) -> Result<(), AllocError> {
        out.begin_object()?;
        write_field(out, offset, "least", &self.least)?;
        write_field(out, offset, "osds", &self.osds)?;
        out.end_object()
    }
}

/// What is done, what the group is then, and what that costs.
impl Json<EpochOffset> for Outcome {
    ghost value = { outcome_data };

    fn write(&self, out: &mut Writer, offset: EpochOffset) -> Result<(), AllocError> {
        out.begin_object()?;
        write_field(out, offset, "intervals", &self.price.intervals)?;
        write_field(out, offset, "lost", &self.losses)?;
        write_field(out, offset, "start", &self.starts)?;
        write_field(out, offset, "then", &self.after)?;
        write_field(out, offset, "unreadable", &self.price.unreadable)?;
        out.end_object()
    }
}

impl Json<EpochOffset> for Then {
    ghost value = { λ _ after. then_data after };

    #[tactic(auto, using(pgp_text::proofs::Tokens::token_steps))]
    fn write(&self, out: &mut Writer, offset: EpochOffset) -> Result<(), AllocError> {
        out.begin_object()?;
        write_field(out, offset, "says", &self.says.as_str())?;
        write_field(out, offset, "verdict", &self.verdict.name())?;
        out.end_object()
    }
}
