//! A log that one thread tells and asks, line by line or in values, with no reader and no writer.

ghost use Rattle.std.specs.Prelude.{◌≡◌, [], length, map, is_some, option_copied, option_map, true, OnOk, IfOk, OnErr};
ghost use Rattle.std.specs.Arc.{arc_value};
ghost use Rattle.std.specs.Borrow.{sem};
ghost use Rattle.std.specs.Io.BufRead.{Rests};
ghost use Rattle.pgp_group.specs.Touched.{view_at};
ghost use Rattle.pgp_log.specs.Log.{epoch_of, is_legal};
ghost use Rattle.pgp_lines.specs.declared.command.Command.TheVariants.{Locate, Submit};
ghost use Rattle.pgp_core.specs.Added.{IsOutcome, added_by, with_added};
ghost use Rattle.pgp_core.specs.Changed.{AreAllChanged};
ghost use Rattle.pgp_core.specs.Counts.{counts_of};
ghost use Rattle.pgp_core.specs.Script.{MayMeet, answer, log_past};
ghost use Rattle.pgp_core.specs.Session.{LogAndAnswer, last_text, log_then, met_by, reply_in, view_in};
ghost use Rattle.pgp_core.specs.Wants.{MayFindNone};

use super::answer::{NoReply, answer_line};
use super::codec::Codec;
use super::counts::EntryCounts;
use super::line::{LONGEST_LINE, all_blank, long_line, want_line};
use super::log::Log;
use super::outcome::LineOutcome;
use super::want::Want;
use pgp_ids::{Entry, Epoch, ObjectName, PgId, PoolId, View};
use pgp_lines::Format;
use pgp_text::Reply;
use std::alloc::{AllocError, Global};
use std::marker::Model;
use std::sync::Arc;

/// What was written for the last line of a session.
#[derive(Clone, Copy)]
pub enum LastAnswer {
    /// A text of its own, or nothing.
    Written,
    /// The constant text for a line that is too long.
    LineTooLong,
    /// The constant text for a line where there was no memory for this.
    NoMemory(Want),
}

/// A log that one thread tells and asks, with the answer to its last line. It starts no thread and takes no lock. A run of a
/// script doesn't stand on it: a stream gives a line in pieces, and an engine may answer in the log's place. Both end in
/// `answer_line`.
///
/// Contracts see it as the version up to which it reads lines, its log and that answer.
#[derive(Drop)]
pub struct Session {
    alloc: Global,
    log: Log,
    codec: Codec,
    /// The text of the last answer, where it is one of its own.
    text: Vec<u8>,
    last: LastAnswer,
}

impl Model for Session {
    ghost Value = { LogAndAnswer };

    ghost view = { λ session. record { format = session.codec.reader.format; log = session.log; answer = last_text session.last session.text.items } };
}

impl Session {
    ghost use Rattle.pgp_core.specs.contracts.session.Session.{the_row};

    /// An empty log, before its first line, of a session that reads lines up to this version. It takes no memory.
    pub fn new(alloc: Global, format: Format) -> Self
        ensures format { result.format ≡ format }
        ensures log { result.log ≡ [] }
        ensures answer { result.answer ≡ [] }
    {
        Session {
            alloc,
            log: Log::new(alloc),
            codec: Codec::new(alloc, format),
            text: Vec::new(alloc),
            last: LastAnswer::Written,
        }
    }

    /// Answers a line, given without its line feed: the same bytes as [`run_script`](super::run_script) writes for it, which
    /// [`Session::last_answer`] gives. A line of blanks has none.
    ///
    /// An error says what there was no memory for. The line then has its constant text, and the log stays as it was.
    pub fn answer(&mut self, line: &[u8]) -> Result<(), Want>
        ensures may { MayMeet self.old.format (met_by result) line.now }
        ensures answer { self.new.answer ≡ answer self.old.format self.old.log (met_by result) line.now }
        ensures log { self.new.log ≡ log_past self.old.format self.old.log (met_by result) line.now }
        ensures format { self.new.format ≡ self.old.format }
    {
        self.text.clear();
        self.last = LastAnswer::Written;
        if all_blank(line) {
            return Ok(());
        }
        if line.len() > LONGEST_LINE {
            self.last = LastAnswer::LineTooLong;
            return Ok(());
        }
        let answered = answer_line(
            self.alloc,
            &mut self.codec,
            line,
            &mut self.log,
            &mut self.text,
        );
        match answered {
            Ok(()) => Ok(()),
            Err(NoReply::Memory(want)) => {
                self.last = LastAnswer::NoMemory(want);
                Err(want)
            }
            Err(NoReply::Gone) => unreachable!(),
        }
    }

    /// Reads a line, given without its line feed, and takes its entry, if it is one that fits: what the line is to the log before it.
    /// Nothing is answered: the last answer stays. Where it is out of memory, so does the log.
    pub fn read(&mut self, line: &[u8]) -> Result<LineOutcome, AllocError>
        ensures outcome { IfOk result (IsOutcome self.old.format self.old.log line.now) }
        ensures log { OnOk result (self.new.log ≡ with_added self.old.log (added_by self.old.format self.old.log line.now)) }
        ensures answer { self.new.answer ≡ self.old.answer }
        ensures format { self.new.format ≡ self.old.format }
        ensures kept { OnErr result (self.new.log ≡ self.old.log) }
    {
        self.log.read_line(self.alloc, &mut self.codec.reader, line)
    }

    /// Up to which version it reads lines.
    pub fn format(&self) -> Format
        ensures { result ≡ self.now.format }
    {
        self.codec.reader.format
    }

    /// The epoch of the map that the entries make, 0 before the first.
    pub fn epoch(&self) -> Epoch
        ensures { result ≡ epoch_of self.now.log }
    {
        self.log.map().epoch()
    }

    /// How many entries of each kind its log has. It takes no memory.
    pub fn counts(&self) -> EntryCounts
        ensures { result ≡ counts_of self.now.log }
    {
        self.log.counts()
    }

    /// What was written for the last line, with its line feed.
    pub fn last_answer(&self) -> &[u8]
        ensures { result.now ≡ self.now.answer }
    {
        match self.last {
            LastAnswer::Written => self.text.as_slice(),
            LastAnswer::LineTooLong => long_line(),
            LastAnswer::NoMemory(want) => want_line(want),
        }
    }

    /// Has this text for its answer, until the next line.
    pub fn answer_with(&mut self, text: Vec<u8>)
        ensures answer { self.new.answer ≡ text.items }
        ensures log { self.new.log ≡ self.old.log }
        ensures format { self.new.format ≡ self.old.format }
    {
        self.text = text;
        self.last = LastAnswer::Written;
    }

    /// Where the object of this name lies, by the map that the entries make. It takes no memory.
    #[tactic(auto, unfolding(crate::specs::Session::reply_in))]
    pub fn locate(&mut self, id: PoolId, name: &ObjectName) -> Reply
        ensures reply { result ≡ reply_in self.old.log (Locate id name.now) }
        ensures same { self.new ≡ self.old }
    {
        self.log.locate(id, name)
    }

    /// What the log says of a group, except for count and epoch, where its map has it: only then it may be out of memory. It isn't copied.
    #[tactic(auto, unfolding(crate::specs::Session::view_in))]
    pub fn view(&mut self, pg: &PgId) -> Result<Option<&View>, AllocError>
        ensures view { IfOk result (λ view. view_in self.old.log pg.now
            ≡ option_map (view_at (length self.old.log) (epoch_of self.old.log)) (option_copied view)) }
        ensures memory { OnErr result (is_some (view_in self.old.log pg.now) ≡ true) }
        ensures* same { sem 𝓛 (Rests the_row self.entry (λ last. last ≡ self.old)) }
    {
        self.log.view(pg)
    }

    /// Does at most `max` steps of what the next questions would have to do, and says how many are left: entries that are to be read, and
    /// once all are, groups that are to be worked out. The answers stay the same.
    pub fn work(&mut self, max: usize) -> Result<usize, AllocError>
        ensures { self.new ≡ self.old }
    {
        self.log.work(max)
    }

    /// The groups that may have changed since its log had this many entries, each once, in the order in which its map got them. Of each
    /// other group it says what it said, except for count and epoch.
    pub fn changed_since(&mut self, count: usize) -> Result<Vec<PgId>, AllocError>
        ensures changed { IfOk result (λ ids. AreAllChanged count self.old.log ids.items) }
        ensures same { self.new ≡ self.old }
    {
        self.log.changed_since(count)
    }

    /// Tells the log an entry, and gives the reply. Where the log takes the entry, it has it from now on.
    #[tactic(auto, unfolding(crate::specs::Session::reply_in, crate::specs::Session::log_then))]
    pub fn submit(&mut self, entry: Entry) -> Result<Reply, AllocError>
        ensures reply { IfOk result (λ reply. reply ≡ reply_in self.old.log (Submit entry)) }
        ensures log { OnOk result (self.new.log ≡ log_then self.old.log (Submit entry)) }
        ensures answer { self.new.answer ≡ self.old.answer }
        ensures format { self.new.format ≡ self.old.format }
        ensures kept { OnErr result (self.new.log ≡ self.old.log) }
        ensures memory { OnErr result (MayFindNone self.old.log (Submit entry)) }
    {
        self.log.submit(entry)
    }

    /// The entries of its log, in the order in which they were taken: a legal log.
    pub fn entries(&self) -> &[Arc<Entry>]
        ensures entries { map arc_value result.now ≡ self.now.log }
        ensures legal { is_legal self.now.log ≡ true }
    {
        self.log.entries()
    }

    /// Goes on with the log of these entries in place of its own: a legal log, as the compacted one. The last answer stays.
    /// Where there is no memory for it, the session stays as it was.
    pub fn go_on_with(&mut self, entries: &[Arc<Entry>]) -> Result<(), AllocError>
        requires { is_legal (map arc_value entries.now) ≡ true }
        ensures log { OnOk result (self.new.log ≡ map arc_value entries.now) }
        ensures answer { self.new.answer ≡ self.old.answer }
        ensures format { self.new.format ≡ self.old.format }
        ensures kept { OnErr result (self.new.log ≡ self.old.log) }
    {
        self.log = Log::over(self.alloc, entries)?;
        Ok(())
    }
}
