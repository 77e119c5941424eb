//! What is told of a group, as JSON.

ghost use Rattle.std.specs.Prelude.{◌≡◌};
ghost use Rattle.pgp_group_words.specs.Json.{blocking_data, copies_data, fate_name, gap_data, info_data, interval_now_data};

use super::offset::EpochOffset;
use json::Writer;
use pgp_ids::Info;
use pgp_reasons::{Blocking, Copies, Gap, IntervalNow, Writes};
use pgp_text::{Json, write_field, write_pair};
use std::alloc::AllocError;

/// `[first, last]`.
impl Json<EpochOffset> for Gap {
    ghost value = { λ _ gap. gap_data gap };

    fn write(&self, out: &mut Writer, _offset: EpochOffset) -> Result<(), AllocError> {
        write_pair(out, u64::from(self.first), u64::from(self.last))
    }
}

/// Who sent an info, and when, how far its copy goes, and how far its log.
impl Json<EpochOffset> for Info {
    ghost value = { info_data };

    fn write(&self, out: &mut Writer, offset: EpochOffset) -> Result<(), AllocError> {
        out.begin_object()?;
        write_field(out, offset, "complete", &self.complete)?;
        write_field(out, offset, "from", &self.member)?;
        write_field(out, offset, "history_les", &self.history_les)?;
        write_field(out, offset, "last_epoch_clean", &self.last_epoch_clean)?;
        write_field(out, offset, "last_update", &self.last_update)?;
        write_field(out, offset, "les", &self.les)?;
        write_field(out, offset, "log_tail", &self.log_tail)?;
        write_field(out, offset, "stamp", &self.stamp)?;
        out.end_object()
    }
}

/// Who served in a past interval, what has become of them, and of its writes.
impl Json<EpochOffset> for IntervalNow {
    ghost value = { interval_now_data };

    fn write(&self, out: &mut Writer, offset: EpochOffset) -> Result<(), AllocError> {
        out.begin_object()?;
        write_field(out, offset, "acting", &self.acting)?;
        write_field(out, offset, "down", &self.down)?;
        write_field(out, offset, "first", &self.first)?;
        write_field(out, offset, "gone", &self.gone)?;
        write_field(out, offset, "last", &self.last)?;
        write_field(out, offset, "lost", &self.lost)?;
        write_field(out, offset, "lost_before", &self.lost_before)?;
        write_field(out, offset, "up", &self.up)?;
        write_field(out, offset, "writes", &writes_name(self.writes))?;
        out.end_object()
    }
}

fn writes_name(writes: Writes) -> &'static str
    ensures { result.now ≡ fate_name writes }
{
    match writes {
        Writes::Readable => "readable",
        Writes::Away => "away",
        Writes::Gone => "gone",
    }
}

impl Json<EpochOffset> for Blocking {
    ghost value = { blocking_data };

    #[tactic(auto, using(pgp_text::proofs::Tokens::token_steps))]
    fn write(&self, out: &mut Writer, offset: EpochOffset) -> Result<(), AllocError> {
        out.begin_object()?;
        write_field(out, offset, "clean", &self.clean)?;
        write_field(out, offset, "interval", &self.interval)?;
        write_field(out, offset, "lacks", &self.lacks)?;
        out.end_object()
    }
}

impl Json<EpochOffset> for Copies {
    ghost value = { λ _ copies. copies_data copies };

    #[tactic(auto, using(pgp_text::proofs::Tokens::token_steps))]
    fn write(&self, out: &mut Writer, offset: EpochOffset) -> Result<(), AllocError> {
        out.begin_object()?;
        write_field(out, offset, "lacks", &self.lacks)?;
        write_field(out, offset, "members", &self.members)?;
        out.end_object()
    }
}
