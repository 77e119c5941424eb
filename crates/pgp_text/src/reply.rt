//! The answers to lines, and their text.
ghost use Rattle.std.specs.Prelude.{◌≡◌, ◌++◌, [], IfOk, OnOk, OnErr};
ghost use Rattle.json.specs.Print.{print};
ghost use Rattle.pgp_text.specs.Asked.{asked_data};
ghost use Rattle.pgp_text.specs.Reply.{reply_data, reply_text};
ghost use Rattle.pgp_text.specs.Written.{tokens_of};
ghost use Rattle.pgp_text.specs.declared.reply.Reply.TheVariants.{Asked};

mod line_refusal;
mod parts;
mod peers;

use json::Writer;
pub use line_refusal::LineRefusal;
pub use parts::{EpochNumbers, Json, write_field, write_pair};
use pgp_ids::{Epoch, Membership, Past, PgId, Seq, View};
use pgp_lines::Op;
use std::alloc::{AllocError, Global};
use std::mem;

/// What a line is answered.
#[derive(Drop)]
pub enum Reply {
    /// The log took an entry, and has `count` entries now; the epoch is that of the map now.
    Accepted {
        op: Op,
        count: usize,
        epoch: Epoch,
    },
    /// All that the log says of a group.
    Asked(PgId, View),
    /// The group of an object, and where it lies in the map of this epoch.
    Located {
        pg: PgId,
        members: Membership,
        epoch: Epoch,
    },
    /// The epoch in which the current interval began, and the past intervals in ascending order.
    Traced {
        first: Epoch,
        past: Seq<Past>,
    },
    /// Why the line had no effect.
    Refused(LineRefusal),
}

/// The text of a reply, without a line feed: compact JSON, the keys of each object in ascending byte order.
pub fn write_reply(alloc: Global, reply: &Reply) -> Result<Vec<u8>, AllocError>
    ensures { IfOk result (λ text. text.items ≡ reply_text reply.now) }
{
    let mut text = Vec::new(alloc);
    ReplyWriter::new(alloc).put(alloc, reply, &mut text)?;
    Ok(text)
}

/// Writes replies one after the other, with room that it keeps from reply to reply. The room isn't the text behind which replies
/// are put: the writer of `json` zeroes ahead as much as its buffer holds already, up to 16 KiB, for each reply.
#[derive(Drop)]
pub struct ReplyWriter {
    room: Vec<u8>,
}

impl ReplyWriter {
    /// A writer of replies. It takes no memory before its first reply.
    pub fn new(alloc: Global) -> Self {
        ReplyWriter {
            room: Vec::new(alloc),
        }
    }

    /// Puts the text of a reply, as [`write_reply`] writes it, behind what `text` has. Where there is no memory,
    /// `text` stays as it was.
    #[tactic(auto, using(crate::proofs::Tokens::text_steps))]
    pub fn put(
        &mut self,
        alloc: Global,
        reply: &Reply,
        text: &mut Vec<u8>,
    ) -> Result<(), AllocError>
        ensures ok { OnOk result (text.new.items ≡ text.old.items ++ reply_text reply.now) }
        ensures err { OnErr result (text.new.items ≡ text.old.items) }
    {
        let mut out = self.begin(alloc);
        reply.write(&mut out, alloc)?;
        self.end(out, text)
    }

    /// Puts the text of [`Reply::Asked`] of this view with this count and this epoch, as [`ReplyWriter::put`] does, wherever the
    /// view is kept.
    pub fn put_asked(
        &mut self,
        alloc: Global,
        pg: PgId,
        view: &View,
        count: usize,
        epoch: Epoch,
        text: &mut Vec<u8>,
    ) -> Result<(), AllocError>
        ensures ok { OnOk result (text.new.items
            ≡ text.old.items ++ reply_text (Asked pg (record view.now { count = count; epoch = epoch }))) }
        ensures err { OnErr result (text.new.items ≡ text.old.items) }
    {
        let mut out = self.begin(alloc);
        write_asked(alloc, &mut out, pg, view, count, epoch)?;
        self.end(out, text)
    }

    /// Begins a reply, in the room that is kept.
    fn begin(&mut self, alloc: Global) -> Writer
        ensures tokens { result.tokens ≡ [] }
        ensures before { result.before ≡ [] }
    {
        self.room.clear();
        Writer::new(mem::replace(&mut self.room, Vec::new(alloc)))
    }

    /// Puts what was written behind what `text` has, and keeps the room.
    fn end(&mut self, out: Writer, text: &mut Vec<u8>) -> Result<(), AllocError>
        ensures ok { OnOk result (text.new.items ≡ text.old.items ++ (out.before ++ print out.tokens)) }
        ensures err { OnErr result (text.new.items ≡ text.old.items) }
    {
        self.room = out.into_inner();
        text.extend_from_slice(self.room.as_slice())
    }
}

impl Json<Global> for Reply {
    ghost value = { λ _ x. reply_data x };

    #[tactic(auto, using(crate::proofs::Tokens::token_steps))]
    fn write(&self, out: &mut Writer, alloc: Global) -> Result<(), AllocError> {
        match self {
            Reply::Accepted { op, count, epoch } => {
                out.begin_object()?;
                write_field(out, alloc, "count", count)?;
                write_field(out, alloc, "epoch", epoch)?;
                write_field(out, alloc, "ok", &op.name())?;
                out.end_object()
            }
            Reply::Asked(pg, view) => write_asked(alloc, out, *pg, view, view.count, view.epoch),
            Reply::Located { pg, members, epoch } => {
                out.begin_object()?;
                write_field(out, alloc, "acting", &members.acting)?;
                write_field(out, alloc, "acting_primary", &members.acting_primary)?;
                write_field(out, alloc, "epoch", epoch)?;
                write_field(out, alloc, "ok", &Op::Locate.name())?;
                write_field(out, alloc, "pg", pg)?;
                write_field(out, alloc, "up", &members.up)?;
                write_field(out, alloc, "up_primary", &members.up_primary)?;
                out.end_object()
            }
            Reply::Traced { first, past } => {
                out.begin_object()?;
                write_field(out, alloc, "first", first)?;
                write_field(out, alloc, "intervals", past)?;
                write_field(out, alloc, "ok", &Op::Trace.name())?;
                out.end_object()
            }
            Reply::Refused(refused) => refused.write(out, alloc),
        }
    }
}

/// All that the log says of a group, with this count and this epoch.
fn write_asked(
    alloc: Global,
    out: &mut Writer,
    pg: PgId,
    known: &View,
    count: usize,
    epoch: Epoch,
) -> Result<(), AllocError>
    ensures ok { OnOk result (out.new.tokens
        ≡ out.old.tokens ++ tokens_of (asked_data pg (record known.now { count = count; epoch = epoch }))) }
    ensures before { out.new.before ≡ out.old.before }
{
    out.begin_object()?;
    write_field(out, alloc, "acting", &known.acting)?;
    write_field(out, alloc, "acting_primary", &known.acting_primary)?;
    write_field(out, alloc, "best", &known.best)?;
    write_field(out, alloc, "blocked_by", &known.blocked_by)?;
    write_field(out, alloc, "count", &count)?;
    write_field(out, alloc, "epoch", &epoch)?;
    write_field(out, alloc, "first", &known.first)?;
    write_field(out, alloc, "intervals", &known.intervals)?;
    write_field(out, alloc, "les", &known.les)?;
    write_field(out, alloc, "missing", &known.missing)?;
    write_field(out, alloc, "ok", &Op::Ask.name())?;
    write_field(out, alloc, "pg", &pg)?;
    write_field(out, alloc, "probe", &known.probe)?;
    write_field(out, alloc, "up", &known.up)?;
    write_field(out, alloc, "up_primary", &known.up_primary)?;
    write_field(out, alloc, "verdict", &known.verdict.name())?;
    out.end_object()
}
