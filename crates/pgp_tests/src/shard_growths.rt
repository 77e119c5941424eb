//! That a shard without memory for a call says so, has read what it had read, and that the call can be made again. For
//! `dev/refuse_in_tests.py`; in the gate no allocation is refused.

ghost use Rattle.std.specs.Prelude.{◌≡◌, [], ◌∷◌, ◌++◌, None};
ghost use Rattle.pgp_log.specs.Fits.{fits};
ghost use Rattle.pgp_log.specs.Judge.{CanTake, IsJudgeOf, OfItsLog};

use pgp_fixtures::{TO_SERVE, entry, group};
use pgp_ids::{AskRefusal, Entry, PgId, Verdict};
use pgp_log::Judge;
use pgp_shard::ShardState;
use std::process::Abort;
use std::sync::Arc;

/// The map of four groups of three copies.
const FOUR_GROUPS: &str =
    r#"{"op":"inc","epoch":1,"up":[0,1,2],"crush":[{"id":-1,"type":1,"alg":"uniform","items":[0,1,2]}],"pools":[{"id":1,"pg_num":4,"kind":"replicated","size":3,"min_size":2,"leaf":0}]}"#;

/// The verdicts of group 0 after each of the entries by which it comes to serve.
const VERDICTS: [Verdict; 5] = [
    Verdict::Waiting,
    Verdict::Waiting,
    Verdict::NeedLog,
    Verdict::NeedUpThru,
    Verdict::Serve,
];

/// A shard that has all groups, and the judge of what it has read.
#[derive(Drop)]
struct Reader {
    state: ShardState,
    judge: Judge,
    ghost read: { IsJudgeOf state.front judge },
}

// Takes the entry, at the second try where the first lacks memory.
fn follow(rt: &impl Abort, judge: &mut Judge, entry: &Entry)
    requires { CanTake judge.old entry.now }
    ensures { OfItsLog judge.old (λ log. fits log entry.now ≡ None → IsJudgeOf (log ++ entry.now ∷ []) judge.new) }
{
    let Err(_) = judge.take(entry) else {
        return;
    };
    judge.take(entry).expect(rt, "memory at the second try");
}

impl Reader {
    // Reads the entry that the line is, or says that there was no memory.
    fn read<R: Abort + AllocGlobal>(&mut self, rt: &R, line: &str) -> Option<()> {
        let entry = Arc::new(rt.alloc(), entry(rt.alloc(), line)?).ok()?;
        let Ok(()) = self.judge.fits(&entry) else {
            return None;
        };
        let Ok(()) = self.state.absorb(&entry) else {
            return None;
        };
        follow(rt, &mut self.judge, &entry);
        Some(())
    }

    /// Reads it, at the second try where the first lacks memory; then it has read what it had read.
    fn read_surely<R: Abort + AllocGlobal>(&mut self, rt: &R, line: &str) {
        let count = self.state.count();
        if self.read(rt, line).is_none() {
            assert_eq!(rt; self.state.count(), count);
            self.read(rt, line).expect(rt, "read at the second try");
        }
    }

    /// The group has this verdict, at the second try where the first lacks memory.
    fn answers(&mut self, rt: &impl Abort, pg: u16, verdict: Verdict) {
        let pg = PgId { pg, ..group() };
        assert!(rt; self.state.owns(&pg), "a group of the only shard");
        let asked = match self.state.ask(pg) {
            Err(AskRefusal::Memory) => self.state.ask(pg),
            asked => asked,
        };
        let view = asked.ok().expect(rt, "a view");
        assert_eq!(rt; view.count, self.state.count());
        assert_eq!(rt; view.verdict, verdict);
    }

    /// So many groups are left, at the second try where the first lacks memory.
    fn leaves(&mut self, rt: &impl Abort, most: usize, expected: usize) {
        let left = match self.state.renew(most) {
            Err(_) => self.state.renew(most),
            left => left,
        };
        assert_eq!(rt; left.ok(), Some(expected));
    }

    /// So many groups may have changed since it had read nothing, at the second try where the first lacks memory.
    fn has_changed(&mut self, rt: &impl Abort, expected: usize) {
        let changed = match self.state.changed_since(0) {
            Err(_) => self.state.changed_since(0),
            changed => changed,
        };
        assert_eq!(rt; changed.ok().expect(rt, "the groups").len(), expected);
    }
}

/// Each entry marks group 0, and group 3 was worked out before. Of all allocations one may be refused.
#[test]
fn each_call_of_a_shard_can_be_made_again(rt: HostRuntime) {
    let mut reader = Reader {
        state: ShardState::start(rt.alloc(), 0, 1),
        judge: Judge::start(rt.alloc()),
    };
    reader.read_surely(&rt, FOUR_GROUPS);
    reader.leaves(&rt, 1, 3);
    for (line, verdict) in TO_SERVE[1..].iter().zip(VERDICTS) {
        reader.read_surely(&rt, line);
        reader.answers(&rt, 3, Verdict::Waiting);
        reader.answers(&rt, 0, verdict);
    }
    reader.leaves(&rt, 4, 0);
    reader.has_changed(&rt, 4);
}
