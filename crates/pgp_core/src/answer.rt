//! The answer to a line, by the reply to its command, whoever gives that.

ghost use Rattle.std.specs.Prelude.{◌≡◌, ◌≤◌, ◌+◌, ◌++◌, ◌∷◌, [], Bool, List, length, take, option_copied, option_map, vec_len, vec_capacity, true, false, IsOk, IfOk, IfErr, OnOk, OnErr};
ghost use Rattle.pgp_ids.specs.declared.entry.Entry.{Entry as AnyEntry};
ghost use Rattle.pgp_group.specs.Touched.{view_at};
ghost use Rattle.pgp_lines.specs.Command.{HasFewEpochs};
ghost use Rattle.pgp_lines.specs.declared.command.Command.TheVariants.{Ask, Locate, Submit};
ghost use Rattle.pgp_text.specs.Reply.{reply_text};
ghost use Rattle.pgp_core.specs.Answer.{asked_reply, traced_reply};
ghost use Rattle.pgp_core.specs.Answerer.{MayAnswerBy, Replies, says_accepted};
ghost use Rattle.pgp_core.specs.Lines.{is_blank};
ghost use Rattle.pgp_core.specs.Script.{longest_line};
ghost use Rattle.pgp_core.specs.Wants.{LacksReply, MayFindNone};
ghost use Rattle.pgp_core.specs.WrittenFor.{PutsReply, PutsText, MayLack};

use super::accepted::{LONGEST_ACCEPTED, put_accepted};
use super::codec::Codec;
use super::want::Want;
use pgp_code::AnyCode;
use pgp_ids::{
    AskRefusal, Entry, Epoch, EpochState, ObjectName, PgId, PoolId, PoolKind, Seq, TextFault, View,
};
use pgp_interval::Intervals;
use pgp_lines::{Command, MAX_EPOCHS};
use pgp_text::{LineRefusal, Reply, ReplyWriter};
use std::alloc::{AllocError, Global};

/// Why a command has no reply, and its line no answer.
#[derive(Clone, Copy)]
pub enum NoReply {
    /// There was no memory for this.
    Memory(Want),
    /// There is nobody any more to answer it.
    Gone,
}

/// There was no memory for a line, or for the answer to it.
impl From<AllocError> for NoReply {
    ghost use Rattle.std.specs.Prelude.{◌≡◌};
    ghost use Rattle.pgp_core.specs.declared.answer.NoReply.TheVariants.{Memory};
    ghost use Rattle.pgp_core.specs.declared.want.Want.TheVariants.{Line};

    ghost from_gives = { λ _ why. why ≡ Memory Line };

    fn from(_error: AllocError) -> NoReply {
        NoReply::Memory(Want::Line)
    }
}

/// Who answers the commands of a script: it stands for a log, to which its commands add.
pub trait Answerer {
    // Nobody else adds to the log.
    ghost alone: { Bool };

    // The log for which it stands.
    ghost log: { Self → List AnyEntry };

    /// The reply to an entry. Where the log takes it, the log has it from now on; where there is no reply, it adds nothing. Where
    /// nobody else adds to the log, out of memory never comes in place of a refusal that is found without memory. `Gone` comes
    /// only where others do.
    fn reply_to_entry(&mut self, entry: Entry) -> Result<Reply, NoReply>
        ensures reply { IfOk result (λ reply. Replies alone (log self.old) (log self.new) (Submit entry) reply) }
        ensures kept { OnErr result (MayAnswerBy alone (log self.old) (log self.new)) }
        ensures lacks { IfErr result (LacksReply alone (Submit entry)) }
        ensures memory { OnErr result (alone ≡ true → MayFindNone (log self.old) (Submit entry)) };

    /// The reply to the question where an object lies. Where nobody else adds to the log, there always is one.
    fn reply_to_locate(&mut self, pool: PoolId, name: &ObjectName) -> Result<Reply, NoReply>
        ensures reply { IfOk result (λ reply. Replies alone (log self.old) (log self.new) (Locate pool name.now) reply) }
        ensures kept { OnErr result (MayAnswerBy alone (log self.old) (log self.new)) }
        ensures lacks { IfErr result (LacksReply alone (Locate pool name.now)) }
        ensures memory { OnErr result (alone ≡ true → MayFindNone (log self.old) (Locate pool name.now)) };

    /// Puts the reply to a question about a group behind the text, with a line feed. One who keeps what it says writes that from
    /// where it lies.
    fn put_asked(
        &mut self,
        alloc: Global,
        writer: &mut ReplyWriter,
        pg: PgId,
        text: &mut Vec<u8>,
    ) -> Result<(), NoReply>
        ensures ok { OnOk result (PutsReply alone (log self.old) (log self.new) (Ask pg) text.old.items text.new.items) }
        ensures text { OnErr result (text.new.items ≡ text.old.items) }
        ensures kept { OnErr result (MayAnswerBy alone (log self.old) (log self.new)) }
        ensures lacks { IfErr result (LacksReply alone (Ask pg)) };
}

/// The reply to a trace of a group whose pool is of this kind: its intervals in these epochs.
pub fn traced_reply(
    alloc: Global,
    kind: PoolKind,
    epochs: Seq<EpochState>,
) -> Result<Reply, AllocError>
    requires { length epochs ≤ MAX_EPOCHS }
    ensures { IfOk result (λ reply. reply ≡ traced_reply kind epochs) }
{
    let mut states = epochs.into_vec().into_iter();
    let Some(opening) = states.next() else {
        return Ok(Reply::Traced {
            first: Epoch::new(1),
            past: Seq::new(alloc),
        });
    };
    let code = AnyCode::of_pool(kind);
    let mut history = Intervals::begin(alloc, code, Epoch::new(1), opening.members);
    let mut facts = opening.facts;
    for state in states {
        let epoch = Epoch::new(history.last().number() + 1);
        history.step(epoch, state.members, facts)?;
        facts = state.facts;
    }
    let (first, _) = history.current();
    Ok(Reply::Traced {
        first,
        past: Seq::from_vec(history.past(alloc)?),
    })
}

/// Puts the answer to a line that isn't blank and not too long behind the text, with a line feed.
///
/// Where the line is an entry that the log takes, the log has it from now on. Where it has no answer, the text stays and the
/// line adds nothing to the log.
pub fn answer_line<A: Answerer>(
    alloc: Global,
    codec: &mut Codec,
    line: &[u8],
    answerer: &mut A,
    text: &mut Vec<u8>,
) -> Result<(), NoReply>
    ensures ok { OnOk result (PutsText A.alone codec.old.reader.format (A.log answerer.old) (A.log answerer.new) line.now text.old.items text.new.items) }
    ensures lacks { IfErr result (λ why. is_blank line.now ≡ false → length line.now ≤ longest_line
        → MayLack A.alone codec.old.reader.format why line.now) }
    ensures text { OnErr result (text.new.items ≡ text.old.items) }
    ensures log { OnErr result (MayAnswerBy A.alone (A.log answerer.old) (A.log answerer.new)) }
    ensures format { codec.new.reader.format ≡ codec.old.reader.format }
{
    match codec.reader.read(alloc, line) {
        Ok(command) => answer_command(alloc, &mut codec.writer, command, answerer, text),
        Err(TextFault::Memory) => Err(NoReply::Memory(Want::Line)),
        Err(fault) => {
            let reply = Reply::Refused(LineRefusal::Line(fault));
            put_reply(alloc, &mut codec.writer, &reply, text)?;
            Ok(())
        }
    }
}

/// Puts the reply to a command that was read behind the text, with a line feed.
fn answer_command<A: Answerer>(
    alloc: Global,
    writer: &mut ReplyWriter,
    command: Command,
    answerer: &mut A,
    text: &mut Vec<u8>,
) -> Result<(), NoReply>
    requires { HasFewEpochs command }
    ensures ok { OnOk result (PutsReply A.alone (A.log answerer.old) (A.log answerer.new) command text.old.items text.new.items) }
    ensures lacks { IfErr result (LacksReply A.alone command) }
    ensures text { OnErr result (text.new.items ≡ text.old.items) }
    ensures log { OnErr result (MayAnswerBy A.alone (A.log answerer.old) (A.log answerer.new)) }
{
    match command {
        Command::Submit(entry) => answer_entry(alloc, writer, entry, answerer, text),
        Command::Ask(pg) => answerer.put_asked(alloc, writer, pg, text),
        Command::Locate { pool, name } => {
            let reply = answerer.reply_to_locate(pool, &name)?;
            Ok(put_reply(alloc, writer, &reply, text)?)
        }
        Command::Trace { code, epochs } => {
            let reply = traced_reply(alloc, code, epochs)?;
            Ok(put_reply(alloc, writer, &reply, text)?)
        }
    }
}

/// Puts the reply to an entry behind the text, with a line feed.
///
/// Before the answerer is told the entry, there is room for the answer to one that is taken: so that answer can't fail once the
/// log has the entry.
fn answer_entry<A: Answerer>(
    alloc: Global,
    writer: &mut ReplyWriter,
    entry: Entry,
    answerer: &mut A,
    text: &mut Vec<u8>,
) -> Result<(), NoReply>
    ensures ok { OnOk result (PutsReply A.alone (A.log answerer.old) (A.log answerer.new) (Submit entry) text.old.items text.new.items) }
    ensures lacks { IfErr result (LacksReply A.alone (Submit entry)) }
    ensures text { OnErr result (text.new.items ≡ text.old.items) }
    ensures log { OnErr result (MayAnswerBy A.alone (A.log answerer.old) (A.log answerer.new)) }
{
    text.reserve(LONGEST_ACCEPTED)
        .or(Err(NoReply::Memory(Want::Entry)))?;
    let reply = answerer.reply_to_entry(entry)?;
    put_reply(alloc, writer, &reply, text).or(Err(NoReply::Memory(Want::Entry)))
}

/// Puts the reply to a question about a group behind the text, with a line feed, written from where the view is kept. Count and
/// epoch are those of the log.
pub fn put_view(
    alloc: Global,
    writer: &mut ReplyWriter,
    pg: PgId,
    view: Option<&View>,
    count: usize,
    epoch: Epoch,
    text: &mut Vec<u8>,
) -> Result<(), AllocError>
    ensures ok { OnOk result (text.new.items ≡ text.old.items
        ++ (reply_text (asked_reply pg (option_map (view_at count epoch) (option_copied view.entry))) ++ 10 ∷ [])) }
    ensures err { OnErr result (text.new.items ≡ text.old.items) }
{
    let Some(view) = view else {
        let unknown = Reply::Refused(LineRefusal::Ask(AskRefusal::UnknownGroup));
        return put_reply(alloc, writer, &unknown, text);
    };
    let before = text.len();
    writer.put_asked(alloc, pg, view, count, epoch, text)?;
    end_line(text, before)
}

/// Puts the text of a reply behind the text, with a line feed. It succeeds where an entry was taken and the text has room
/// for the longest answer to one.
pub fn put_reply(
    alloc: Global,
    writer: &mut ReplyWriter,
    reply: &Reply,
    text: &mut Vec<u8>,
) -> Result<(), AllocError>
    ensures ok { OnOk result (text.new.items ≡ text.old.items ++ (reply_text reply.now ++ 10 ∷ [])) }
    ensures err { OnErr result (text.new.items ≡ text.old.items) }
    ensures sure { says_accepted reply.now ≡ true → vec_len text.old + LONGEST_ACCEPTED ≤ vec_capacity text.old → IsOk result }
{
    match reply {
        Reply::Accepted { op, count, epoch } => put_accepted(text, *op, *count, *epoch),
        reply => {
            let before = text.len();
            writer.put(alloc, reply, text)?;
            end_line(text, before)
        }
    }
}

/// Ends the line that stands behind this many bytes of the text. Where there is no memory for that, the line is taken away.
fn end_line(text: &mut Vec<u8>, before: usize) -> Result<(), AllocError>
    ensures ok { OnOk result (text.new.items ≡ text.old.items ++ 10 ∷ []) }
    ensures err { OnErr result (text.new.items ≡ take before text.old.items) }
{
    if text.push(b'\n').is_err() {
        text.truncate(before);
        return Err(AllocError);
    }
    Ok(())
}
