//! Refusals, and how they are written.
ghost use Rattle.std.specs.Prelude.{◌≡◌, option_map};
ghost use Rattle.pgp_text.specs.LineRefusal.{refused_number, refused_name, refused_key, refused_tree, refused_data};

use super::parts::{Json, write_field, write_field_if};
use json::Writer;
use pgp_ids::{AskRefusal, LocateRefusal, Refusal, TextFault};
use std::alloc::{AllocError, Global};

/// Why a line had no effect.
#[derive(Debug, Drop)]
pub enum LineRefusal {
    /// It is no command.
    Line(TextFault),
    /// The log doesn't take the entry.
    Entry(Refusal),
    /// The question about a group has no answer.
    Ask(AskRefusal),
    /// The question where an object lies has no answer.
    Locate(LocateRefusal),
}

impl LineRefusal {
    /// The number of the refusal.
    pub fn number(&self) -> u8
        ensures { result ≡ refused_number self.now }
    {
        match self {
            LineRefusal::Line(fault) => fault.number(),
            LineRefusal::Entry(refusal) => refusal.number(),
            LineRefusal::Ask(refusal) => refusal.number(),
            LineRefusal::Locate(refusal) => refusal.number(),
        }
    }

    /// The name of the refusal.
    pub fn name(&self) -> &'static str
        ensures { result.now ≡ refused_name self.now }
    {
        match self {
            LineRefusal::Line(TextFault::LineTooLong) => "LineTooLong",
            LineRefusal::Line(TextFault::NotJson) => "NotJson",
            LineRefusal::Line(TextFault::NoOp) => "NoOp",
            LineRefusal::Line(TextFault::UnknownKey(_)) => "UnknownKey",
            LineRefusal::Line(TextFault::BadField(_)) => "BadField",
            LineRefusal::Line(TextFault::Memory) => "Memory",
            LineRefusal::Entry(refusal) => refusal.name(),
            LineRefusal::Ask(refusal) => refusal.name(),
            LineRefusal::Locate(refusal) => refusal.name(),
        }
    }

    /// The key of the line that is at fault, where it is one key.
    pub fn key(&self) -> Option<&str>
        ensures { option_map (λ key. key.now) result ≡ refused_key self.now }
    {
        match self {
            LineRefusal::Line(TextFault::UnknownKey(key) | TextFault::BadField(key)) => {
                Some(key.as_str())
            }
            _ => None,
        }
    }

    /// The number of the tree's fault, 1 to 7, where that is the refusal.
    pub fn tree(&self) -> Option<u8>
        ensures { result ≡ refused_tree self.now }
    {
        match self {
            LineRefusal::Entry(refusal) => refusal.tree(),
            _ => None,
        }
    }
}

impl Json<Global> for LineRefusal {
    ghost value = { λ _ x. refused_data x };

    #[tactic(auto, using(crate::proofs::Tokens::token_steps))]
    fn write(&self, out: &mut Writer, alloc: Global) -> Result<(), AllocError> {
        out.begin_object()?;
        write_field(out, alloc, "code", &self.number())?;
        write_field_if(out, alloc, "key", &self.key())?;
        write_field(out, alloc, "refused", &self.name())?;
        write_field_if(out, alloc, "tree", &self.tree())?;
        out.end_object()
    }
}
