//! The replies of an engine to commands.
ghost use Rattle.std.specs.Prelude.{◌≡◌, [], false};

use pgp_core::{Answerer, NoReply, Want, put_view};
use pgp_engine::{
    Client, Engine, LocateFault, Naming, Place, ReadFault, SubmitAnswer, SubmitFault,
};
use pgp_feed::Receipt;
use pgp_ids::{Entry, LocateRefusal, ObjectName, PgId, PoolId};
use pgp_lines::Op;
use pgp_text::{LineRefusal, Reply, ReplyWriter};
use std::alloc::Global;
use std::marker::Model;
use std::sync::Wait;

/// It answers by an engine, as one of those who submit and ask. Each call hands in the receipt of the last front that it was
/// told of, and is answered by one that holds that front. Contracts see it as the entries of that front.
#[derive(Drop)]
pub struct EngineAnswerer<'a, J: Naming, T> {
    rt: &'a T,
    engine: &'a Engine<J>,
    client: Client<J>,
    at: Receipt,
}

impl<'a, J: Naming, T> Model for EngineAnswerer<'a, J, T> {
    ghost use Rattle.std.specs.Prelude.{◌≡◌, List};
    ghost use Rattle.pgp_ids.specs.declared.entry.Entry.{Entry};
    ghost use Rattle.pgp_feed.specs.Receipts.{entries_of, feed_of};

    ghost Value = { List Entry };

    ghost view = { λ a. entries_of a.at };

    ghost invariant = { λ a. feed_of a.at ≡ J.feed };
}

impl<'a, J: Naming, T: Wait> EngineAnswerer<'a, J, T> {
    /// It was told of nothing yet.
    pub fn new(rt: &'a T, engine: &'a Engine<J>, client: Client<J>) -> Self
        ensures { result ≡ [] }
    {
        let mut client = client;
        let at = client.newest().front(0);
        EngineAnswerer {
            rt,
            engine,
            client,
            at,
        }
    }
}

impl<'a, J: Naming, T: Wait> Answerer for EngineAnswerer<'a, J, T> {
    ghost alone = { false };

    ghost log = { λ answerer. answerer };

    /// `Gone`: no copy of the log was lent to judge it by.
    fn reply_to_entry(&mut self, entry: Entry) -> Result<Reply, NoReply> {
        let op = Op::of(&entry);
        match self.engine.submit_with_epoch(self.rt, entry, &self.at) {
            Ok(SubmitAnswer { at, epoch }) => {
                let count = at.len();
                self.at = at;
                Ok(Reply::Accepted { op, count, epoch })
            }
            Err(SubmitFault::Refused { why, at }) => {
                self.at = at;
                Ok(Reply::Refused(LineRefusal::Entry(why)))
            }
            Err(SubmitFault::Memory) => Err(NoReply::Memory(Want::Entry)),
            Err(SubmitFault::NoReader) => Err(NoReply::Gone),
        }
    }

    /// `Gone`: no copy of the log was lent to the client.
    fn reply_to_locate(&mut self, pool: PoolId, name: &ObjectName) -> Result<Reply, NoReply> {
        self.client.learn(&self.at);
        match self.client.locate(pool, name) {
            Ok(
                Place {
                    pg,
                    members,
                    at,
                    epoch,
                },
            ) => {
                self.at = at;
                Ok(Reply::Located { pg, members, epoch })
            }
            Err(LocateFault::UnknownPool { at }) => {
                self.at = at;
                Ok(Reply::Refused(LineRefusal::Locate(LocateRefusal::UnknownPool)))
            }
            Err(LocateFault::Memory) => Err(NoReply::Memory(Want::Line)),
            Err(LocateFault::NoReader) => Err(NoReply::Gone),
        }
    }

    /// It is written from where the group's shard keeps the view, while the shard's lock is held. `Gone`: no copy of the log was
    /// lent to the shard.
    fn put_asked(
        &mut self,
        alloc: Global,
        writer: &mut ReplyWriter,
        pg: PgId,
        text: &mut Vec<u8>,
    ) -> Result<(), NoReply> {
        let turn = match self.engine.show(self.rt, pg, &self.at) {
            Ok(turn) => turn,
            Err(ReadFault::Memory) => return Err(NoReply::Memory(Want::Line)),
            Err(ReadFault::NoReader) => return Err(NoReply::Gone),
        };
        self.at = turn.receipt();
        let count = self.at.len();
        put_view(
            alloc,
            writer,
            pg,
            turn.view_of(&pg),
            count,
            turn.epoch(),
            text,
        )?;
        Ok(())
    }
}
