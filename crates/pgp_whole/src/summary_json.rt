//! A summary as JSON.

ghost use Rattle.std.specs.Prelude.{◌≡◌, ◌++◌, flat_map, IfOk, OnOk, string_bytes};
ghost use Rattle.pgp_text.specs.Written.{fields_tokens};
ghost use Rattle.pgp_whole.specs.SummaryText.{device_data, summary_json, tally_data, verdict_field};

use super::devices::DeviceWaits;
use super::summary::Summary;
use json::Writer;
use pgp_group_words::{EpochOffset, into_line};
use pgp_ids::Verdict;
use pgp_text::{Json, write_field};
use std::alloc::{AllocError, Global};

/// The verdicts, in the ascending order of their names.
const VERDICTS: [Verdict; 8] = [
    Verdict::Down,
    Verdict::Incomplete,
    Verdict::NeedLog,
    Verdict::NeedUpThru,
    Verdict::NoPrimary,
    Verdict::Serve,
    Verdict::Short,
    Verdict::Waiting,
];

impl Summary {
    /// What there is to say of all groups: one object in one line, which ends in a line feed, with the keys of each object in
    /// ascending byte order.
    pub fn json(&self, alloc: Global, offset: EpochOffset) -> Result<String, AllocError>
        ensures { IfOk result (λ text. string_bytes text ≡ summary_json self.now offset) }
    {
        let mut out = Writer::new(Vec::new(alloc));
        out.begin_object()?;
        write_field(&mut out, offset, "devices", &self.devices)?;
        write_field(&mut out, offset, "epoch", &self.epoch)?;
        write_field(&mut out, offset, "groups", &self.verdicts.len())?;
        write_field(&mut out, offset, "verdicts", self)?;
        out.end_object()?;
        into_line(out)
    }
}

/// How many groups have which verdict; one that no group has is left out.
impl Json<EpochOffset> for Summary {
    ghost value = { λ _ summary. tally_data summary.verdicts };

    #[tactic(auto, using(pgp_text::proofs::Tokens::token_steps), unfolding(crate::specs::SummaryText::tally_fields))]
    fn write(&self, out: &mut Writer, offset: EpochOffset) -> Result<(), AllocError> {
        out.begin_object()?;
        write_verdicts(out, offset, self, &VERDICTS)?;
        out.end_object()
    }
}

#[tactic(auto, using(pgp_text::proofs::Tokens::token_steps))]
fn write_verdicts(
    out: &mut Writer,
    offset: EpochOffset,
    summary: &Summary,
    verdicts: &[Verdict],
) -> Result<(), AllocError>
    ensures ok { OnOk result (out.new.tokens
        ≡ out.old.tokens ++ fields_tokens (flat_map (verdict_field summary.now.verdicts) verdicts.now)) }
    ensures before { out.new.before ≡ out.old.before }
{
    for verdict in verdicts {
        write_verdict(out, offset, summary, *verdict)?;
    }
    Ok(())
}

/// How many groups have the verdict, where some have it.
#[tactic(auto, unfolding(pgp_text::specs::Written::fields_tokens))]
fn write_verdict(
    out: &mut Writer,
    offset: EpochOffset,
    summary: &Summary,
    verdict: Verdict,
) -> Result<(), AllocError>
    ensures ok { OnOk result
        (out.new.tokens ≡ out.old.tokens ++ fields_tokens (verdict_field summary.now.verdicts verdict)) }
    ensures before { out.new.before ≡ out.old.before }
{
    let count = summary.count(verdict);
    if count == 0 {
        return Ok(());
    }
    write_field(out, offset, verdict.name(), &count)
}

/// For how many groups the device is waited.
impl Json<EpochOffset> for DeviceWaits {
    ghost value = { λ _ device. device_data device };

    fn write(&self, out: &mut Writer, offset: EpochOffset) -> Result<(), AllocError> {
        out.begin_object()?;
        write_field(out, offset, "awaited", &self.awaited.0)?;
        write_field(out, offset, "blocks", &self.blocks.0)?;
        write_field(out, offset, "frees", &self.frees.0)?;
        write_field(out, offset, "osd", &self.osd)?;
        out.end_object()
    }
}
