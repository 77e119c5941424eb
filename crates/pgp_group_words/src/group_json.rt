//! A group as JSON.

ghost use Rattle.std.specs.Prelude.{◌≡◌, ◌++◌, ◌∷◌, [], IfOk, OnOk, string_bytes};
ghost use Rattle.json.specs.Print.{print};
ghost use Rattle.pgp_text.specs.Written.{fields_tokens};
ghost use Rattle.pgp_group_words.specs.Json.{advice_json, resort_fields};

use super::advice::Advice;
use super::offset::EpochOffset;
use super::outcome::Outcome;
use json::Writer;
use pgp_ids::Seq;
use pgp_text::write_field;
use std::alloc::{AllocError, Global};

impl Advice {
    /// What there is to say of a group: one object in one line, which ends in a line feed, with the keys of each object in
    /// ascending byte order.
    pub fn json(&self, alloc: Global, offset: EpochOffset) -> Result<String, AllocError>
        ensures { IfOk result (λ text. string_bytes text ≡ advice_json self.now offset) }
    {
        let group = &self.explanation;
        let says = group.sentence(alloc, offset)?;
        let unheard = group.unheard(alloc)?;
        let mut out = Writer::new(Vec::new(alloc));
        out.begin_object()?;
        write_field(&mut out, offset, "acting", &group.view.acting)?;
        write_field(
            &mut out,
            offset,
            "acting_primary",
            &group.view.acting_primary,
        )?;
        write_field(&mut out, offset, "blocking", &group.reasons.blocking)?;
        write_field(&mut out, offset, "clean", &group.reasons.clean)?;
        write_field(&mut out, offset, "copies", &group.reasons.copies)?;
        write_field(&mut out, offset, "epoch", &group.view.epoch)?;
        write_field(&mut out, offset, "first", &group.view.first)?;
        write_field(&mut out, offset, "gaps", &group.reasons.gaps)?;
        write_field(&mut out, offset, "heard", &group.reasons.heard)?;
        write_resorts(&mut out, offset, &self.last_resort)?;
        write_field(&mut out, offset, "les", &group.view.les)?;
        write_field(&mut out, offset, "pg", &group.pg)?;
        write_field(&mut out, offset, "says", &says.as_str())?;
        write_field(&mut out, offset, "unheard", &unheard)?;
        write_field(&mut out, offset, "up", &group.view.up)?;
        write_field(&mut out, offset, "up_primary", &group.view.up_primary)?;
        write_field(&mut out, offset, "verdict", &group.view.verdict.name())?;
        write_field(&mut out, offset, "ways", self)?;
        out.end_object()?;
        into_line(out)
    }
}

/// The ways that declare devices lost, where these are wanted.
#[tactic(auto, unfolding(pgp_text::specs::Written::fields_tokens))]
fn write_resorts(
    out: &mut Writer,
    offset: EpochOffset,
    outcomes: &Option<Seq<Outcome>>,
) -> Result<(), AllocError>
    ensures ok { OnOk result
        (out.new.tokens ≡ out.old.tokens ++ fields_tokens (resort_fields offset outcomes.now)) }
    ensures before { out.new.before ≡ out.old.before }
{
    match outcomes {
        Some(outcomes) => write_field(out, offset, "last_resort", outcomes),
        None => Ok(()),
    }
}

/// What was written by a writer that had nothing before, with a line feed behind it.
pub fn into_line(out: Writer) -> Result<String, AllocError>
    requires { out.before ≡ [] }
    ensures { IfOk result (λ text. string_bytes text ≡ print out.tokens ++ 10 ∷ []) }
{
    match String::from_utf8(out.into_inner()) {
        Ok(mut line) => {
            line.push('\n')?;
            Ok(line)
        }
        Err(_) => unreachable!(),
    }
}
