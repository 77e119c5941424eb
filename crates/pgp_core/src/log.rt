//! The log of a script, and what it takes next.
ghost use Rattle.std.specs.Prelude.{◌≡◌, ◌∷◌, ◌++◌, List, [], length, map, is_some, option_copied, option_map, false, true, IfOk, OnOk, OnErr};
ghost use Rattle.std.specs.Arc.{arc_value};
ghost use Rattle.std.specs.Borrow.{sem};
ghost use Rattle.std.specs.Io.BufRead.{Rests};
ghost use Rattle.pgp_ids.specs.declared.entry.Entry.{Entry as AnyEntry};
ghost use Rattle.pgp_map.specs.MapOf.{IsMapOf};
ghost use Rattle.pgp_map.specs.Pools.{has_group, pool};
ghost use Rattle.pgp_group.specs.Entries.{incs_of};
ghost use Rattle.pgp_group.specs.Touched.{view_at};
ghost use Rattle.pgp_group.specs.View.{scratch};
ghost use Rattle.pgp_lines.specs.declared.command.Command.TheVariants.{Submit};
ghost use Rattle.pgp_log.specs.Fits.{fits};
ghost use Rattle.pgp_log.specs.Log.{HasInc, epoch_of, is_legal};
ghost use Rattle.pgp_log.specs.RawSets.{AreRawSets};
ghost use Rattle.pgp_shard.specs.Running.{IsReading};
ghost use Rattle.pgp_shard.specs.Shard.{HasReadSame, is_marked, is_own};
ghost use Rattle.pgp_core.specs.Answer.{located_reply, log_with, submitted_reply};
ghost use Rattle.pgp_core.specs.Changed.{AreAllChanged};
ghost use Rattle.pgp_core.specs.Counts.{counts_of};
ghost use Rattle.pgp_core.specs.Wants.{MayFindNone};

use super::answer::{Answerer, NoReply, put_view};
use super::counts::EntryCounts;
use super::want::Want;
use pgp_ids::{AskRefusal, Entry, LocateRefusal, ObjectName, PgId, PoolId, Refusal, View};
use pgp_lines::Op;
use pgp_log::{JudgedLog, RawSets};
use pgp_map::OsdMap;
use pgp_shard::ShardState;
use pgp_text::{LineRefusal, Reply, ReplyWriter};
use std::alloc::{AllocError, Global};
use std::marker::Model;
use std::sync::Arc;

/// The log that the lines of a script make, which contracts see as the list of the entries that were taken, with a shard that
/// reads them when a group is asked for. It isn't a `World` of one shard, whose list of shards takes memory.
#[derive(Drop)]
pub struct Log {
    log: JudgedLog,
    counts: EntryCounts,
    /// The only one of its log.
    shard: ShardState,
    raw_sets: RawSets,
}

impl Model for Log {
    ghost Value = { List AnyEntry };

    ghost view = { λ log. log.log };

    ghost invariant = { λ log. record {
      counts_are : log.counts ≡ counts_of log.log;
      shard_is : IsReading log.log 1 0 log.shard;
      raw_sets : AreRawSets (incs_of log.log) log.raw_sets;
    } };
}

impl Log {
    ghost use Rattle.pgp_core.specs.contracts.log.Log.{the_row};

    /// The log before its first entry.
    pub fn new(alloc: Global) -> Self
        ensures { result ≡ [] }
    {
        Log::of(alloc, JudgedLog::new(alloc))
    }

    /// The log of these entries, which it shares: a legal log.
    pub fn over(alloc: Global, entries: &[Arc<Entry>]) -> Result<Self, AllocError>
        requires { is_legal (map arc_value entries.now) ≡ true }
        ensures { IfOk result (λ log. log ≡ map arc_value entries.now) }
    {
        Ok(Log::of(alloc, JudgedLog::over(alloc, entries)?))
    }

    /// This log, of which its shard has read nothing.
    fn of(alloc: Global, log: JudgedLog) -> Self
        ensures { result ≡ log }
    {
        let counts = EntryCounts::of(log.entries());
        Log {
            log,
            counts,
            shard: ShardState::start(alloc, 0, 1),
            raw_sets: RawSets::new(alloc),
        }
    }

    /// The map that the entries make.
    pub fn map(&self) -> &OsdMap
        ensures { IsMapOf (incs_of self.now) result.now }
    {
        self.log.map()
    }

    /// The entries, in the order in which they were taken: a legal log.
    pub fn entries(&self) -> &[Arc<Entry>]
        ensures entries { map arc_value result.now ≡ self.now }
        ensures legal { is_legal self.now ≡ true }
    {
        self.log.entries()
    }

    /// How many entries of each kind it has.
    pub fn counts(&self) -> EntryCounts
        ensures { result ≡ counts_of self.now }
    {
        self.counts
    }

    /// The counts with this entry more.
    fn counts_with(&self, entry: &Entry) -> EntryCounts
        ensures { result ≡ counts_of (self.now ++ entry.now ∷ []) }
    {
        let _legal = self.log.entries();
        self.counts.with(entry)
    }

    /// Where the object of this name lies by the map that the entries make: the reply to a question that changes nothing.
    pub fn locate(&mut self, id: PoolId, name: &ObjectName) -> Reply
        ensures reply { result ≡ located_reply self.old id name.now (pool (incs_of self.old) id) }
        ensures same { self.new ≡ self.old }
    {
        let map = self.log.map();
        match self.raw_sets.locate(map, id, name) {
            Some(place) => Reply::Located {
                pg: place.pg,
                members: place.members,
                epoch: map.epoch(),
            },
            None => Reply::Refused(LineRefusal::Locate(LocateRefusal::UnknownPool)),
        }
    }

    /// All that the log says of a group, where its map has it: only then it may be out of memory.
    pub fn ask(&mut self, pg: PgId) -> Result<Option<View>, AllocError>
        ensures view { IfOk result (λ view. view ≡ scratch self.old pg) }
        ensures memory { OnErr result (has_group (incs_of self.old) pg ≡ true) }
        ensures same { self.new ≡ self.old }
    {
        if !read_for(&mut self.shard, &self.log, &pg)? {
            return Ok(None);
        }
        let view = self.shard.ask(pg).or(Err(AllocError))?;
        Ok(Some(view))
    }

    /// What the log says of a group, except for count and epoch, from where its shard keeps it. It is out of memory only where its map has
    /// the group.
    pub fn view(&mut self, pg: &PgId) -> Result<Option<&View>, AllocError>
        ensures view { IfOk result (λ view. scratch self.old pg.now ≡ option_map (view_at (length self.old) (epoch_of self.old)) (option_copied view)) }
        ensures memory { OnErr result (is_some (scratch self.old pg.now) ≡ true) }
        ensures* same { sem 𝓛 (Rests the_row self.entry (λ last. last ≡ self.old)) }
    {
        if !read_for(&mut self.shard, &self.log, pg)? {
            return Ok(None);
        }
        work_out(&mut self.shard, pg)?;
        Ok(self.shard.view_of(pg))
    }

    /// Does at most `max` steps of what the next questions would have to do: a step reads an entry, or works out a group where all
    /// entries are read. How many steps are left, of the one kind or else of the other.
    pub fn work(&mut self, max: usize) -> Result<usize, AllocError>
        ensures { self.new ≡ self.old }
    {
        // Before the first entry the shard makes its groups, which are none: else the first question would make them of all entries
        // at once.
        if self.shard.count() == 0 {
            self.shard.renew(0)?;
        }
        let unread = self.log.len() - self.shard.count();
        self.shard.absorb_next(self.log.entries(), max)?;
        if max < unread {
            return Ok(unread - max);
        }
        self.shard.renew(max - unread)
    }

    /// The groups that may have changed since the log had this many entries, each once, in the order in which its map got them. Of each
    /// other group it says what it said, except for count and epoch.
    pub fn changed_since(&mut self, count: usize) -> Result<Vec<PgId>, AllocError>
        ensures changed { IfOk result (λ ids. AreAllChanged count self.old ids.items) }
        ensures same { self.new ≡ self.old }
    {
        self.shard.absorb_next(self.log.entries(), self.log.len())?;
        self.shard.changed_since(count)
    }

    /// The reply to an entry. Where the log takes it, the log has it from now on.
    pub fn submit(&mut self, entry: Entry) -> Result<Reply, AllocError>
        ensures reply { IfOk result (λ reply. reply ≡ submitted_reply self.old entry (fits self.old entry)) }
        ensures log { OnOk result (self.new ≡ log_with self.old entry (fits self.old entry)) }
        ensures kept { OnErr result (self.new ≡ self.old) }
        ensures memory { OnErr result (MayFindNone self.old (Submit entry)) }
    {
        let op = Op::of(&entry);
        match self.take_if_fits(entry)? {
            None => Ok(Reply::Accepted {
                op,
                count: self.log.len(),
                epoch: self.log.map().epoch(),
            }),
            Some(refusal) => Ok(Reply::Refused(LineRefusal::Entry(refusal))),
        }
    }

    /// Takes the entry if it fits, and else says why it doesn't.
    pub fn take_if_fits(&mut self, entry: Entry) -> Result<Option<Refusal>, AllocError>
        ensures why { IfOk result (λ why. why ≡ fits self.old entry) }
        ensures log { OnOk result (self.new ≡ log_with self.old entry (fits self.old entry)) }
        ensures kept { OnErr result (self.new ≡ self.old) }
        ensures memory { OnErr result (MayFindNone self.old (Submit entry)) }
    {
        match self.log.fits(&entry) {
            Ok(()) => {
                self.raw_sets.follow(&entry);
                let counts = self.counts_with(&entry);
                self.log.take(entry)?;
                self.counts = counts;
                Ok(None)
            }
            Err(Refusal::Memory) => Err(AllocError),
            Err(refusal) => Ok(Some(refusal)),
        }
    }
}

impl Answerer for Log {
    ghost alone = { true };

    ghost log = { λ log. log };

    fn reply_to_entry(&mut self, entry: Entry) -> Result<Reply, NoReply> {
        self.submit(entry).or(Err(NoReply::Memory(Want::Entry)))
    }

    fn reply_to_locate(&mut self, pool: PoolId, name: &ObjectName) -> Result<Reply, NoReply> {
        Ok(self.locate(pool, name))
    }

    /// It is written from where the shard keeps the view.
    fn put_asked(
        &mut self,
        alloc: Global,
        writer: &mut ReplyWriter,
        pg: PgId,
        text: &mut Vec<u8>,
    ) -> Result<(), NoReply> {
        let count = self.log.len();
        let epoch = self.log.map().epoch();
        let view = self.view(&pg)?;
        put_view(alloc, writer, pg, view, count, epoch, text)?;
        Ok(())
    }
}

/// Has the only shard of a log read all of it, where the map has the group: whether that is so. Only there it may be out of memory.
#[tactic(auto, using(pgp_group::proofs::ViewLemmas::scratch_there))]
fn read_for(shard: &mut ShardState, log: &JudgedLog, pg: &PgId) -> Result<bool, AllocError>
    requires { IsReading log.now 1 0 shard.old }
    ensures view { is_some (scratch log.now pg.now) ≡ has_group (incs_of log.now) pg.now }
    ensures there { IfOk result (λ there. there ≡ has_group (incs_of log.now) pg.now) }
    ensures read { IfOk result (λ there. there ≡ true → shard.new.front ≡ log.now) }
    ensures memory { OnErr result (has_group (incs_of log.now) pg.now ≡ true) }
    ensures reading { IsReading log.now 1 0 shard.new }
{
    if !log.map().has_group(pg) {
        return Ok(false);
    }
    shard.absorb_next(log.entries(), log.len())?;
    Ok(true)
}

/// Has the only shard of a log work out the group, where there is one. It is out of memory only where an incremental was read,
/// and, where the marks are there, only where the group is marked. What the shard has read stays.
fn work_out(shard: &mut ShardState, pg: &PgId) -> Result<(), AllocError>
    requires { is_own shard.old.shard shard.old.shards pg.now ≡ true }
    ensures unmarked { OnOk result (is_marked shard.new pg.now ≡ false) }
    ensures memory { OnErr result (HasInc shard.old.front) }
    ensures memory_marked { OnErr result (is_some shard.old.marks ≡ true → is_marked shard.old pg.now ≡ true) }
    ensures same { HasReadSame shard.old shard.new }
{
    match shard.work_out(pg) {
        Ok(()) => Ok(()),
        Err(AskRefusal::UnknownGroup) => Ok(()),
        Err(AskRefusal::Memory) => Err(AllocError),
    }
}
