//! What would bring a group back, in words.

ghost use Rattle.std.specs.Prelude.{◌≡◌, OnOk};
ghost use Rattle.pgp_group_words.specs.Text.{Puts};
ghost use Rattle.pgp_group_words.specs.WaysWords.{any_line, deed_line, may_be_more as may_be_others, more_line, outcome_lines, outcomes_lines, price_line, resort_lines, then_line, unreadable_line, ways_heading, ways_lines};

use super::advice::Advice;
use super::names::plural;
use super::outcome::{Outcome, Then};
use super::page::{InWords, Page};
use pgp_ids::{OsdId, Seq, Verdict};
use pgp_reasons::{IntervalNow, Ways, Writes};
use std::alloc::AllocError;

impl Page {
    /// Puts the ways that only start devices, where there are some.
    #[tactic(auto, unfolding(crate::specs::WaysWords::ways_lines))]
    pub fn put_ways(&mut self, advice: &Advice) -> Result<(), AllocError>
        ensures { OnOk result (Puts self.old self.new (ways_lines self.old.naming advice.now)) }
    {
        if advice.ways.is_empty() {
            return Ok(());
        }
        let ways = &advice.explanation.reasons.ways;
        self.push_str(heading(advice.explanation.view.verdict))?;
        self.put_any(ways)?;
        self.put_outcomes(advice.ways.as_slice())?;
        self.put_more(ways)
    }

    /// Puts the ways that declare devices lost, where these are wanted and there are some.
    #[tactic(auto, unfolding(crate::specs::WaysWords::resort_lines))]
    pub fn put_resorts(&mut self, outcomes: &Option<Seq<Outcome>>) -> Result<(), AllocError>
        ensures { OnOk result (Puts self.old self.new (resort_lines self.old.naming outcomes.now)) }
    {
        match outcomes {
            Some(outcomes) if !outcomes.is_empty() => {
                self.push_str(
                    "\nLast resort, with no way back. First image each disk, or export what it has of the group (ceph-objectstore-tool\n--op export). A device that is declared lost is lost to all of its groups.\n",
                )?;
                self.put_outcomes(outcomes.as_slice())
            }
            _ => Ok(()),
        }
    }

    /// That any so many of some devices are enough, where more than one is needed.
    #[tactic(auto, unfolding(crate::specs::WaysWords::any_line))]
    fn put_any(&mut self, ways: &Ways) -> Result<(), AllocError>
        ensures { OnOk result (Puts self.old self.new (any_line ways.now)) }
    {
        match ways {
            Ways::Any(any) if any.least != 1 => {
                let names = self.list(any.osds.as_slice())?;
                writeln!(self, "  any {} of {names} will do, such as", any.least)
            }
            _ => Ok(()),
        }
    }

    /// That there may be ways that aren't listed.
    fn put_more(&mut self, ways: &Ways) -> Result<(), AllocError>
        ensures { OnOk result (Puts self.old self.new (more_line ways.now)) }
    {
        if may_be_more(ways) {
            return self.push_str("  (there may be others)\n");
        }
        Ok(())
    }

    /// Each way with what follows, the later ones with `or` before them.
    #[tactic(auto, unfolding(crate::specs::WaysWords::outcomes_lines))]
    fn put_outcomes(&mut self, outcomes: &[Outcome]) -> Result<(), AllocError>
        ensures { OnOk result (Puts self.old self.new (outcomes_lines self.old.naming outcomes.now)) }
    {
        let Some((first, others)) = outcomes.split_first() else {
            return Ok(());
        };
        self.push_str("  ")?;
        first.put(self)?;
        self.put_each("  or ", others)
    }

    /// What is done.
    #[tactic(auto, unfolding(crate::specs::WaysWords::deed_line))]
    fn put_deed(&mut self, outcome: &Outcome) -> Result<(), AllocError>
        ensures { OnOk result (Puts self.old self.new (deed_line outcome.now)) }
    {
        self.put_osds("start ", outcome.starts.as_slice(), "")?;
        if !outcome.starts.is_empty() && !outcome.losses.is_empty() {
            self.push_str(" and ")?;
        }
        self.put_osds("declare ", outcome.losses.as_slice(), " lost")?;
        self.push_str("\n")
    }

    /// What the group is then.
    fn put_then(&mut self, after: &Option<Then>) -> Result<(), AllocError>
        ensures { OnOk result (Puts self.old self.new (then_line after.now)) }
    {
        match after {
            Some(after) => {
                let verdict = after.verdict.name();
                writeln!(self, "    then {verdict}: {}", after.says.as_str())
            }
            None => self.push_str("    what it is then isn't known: the log takes no more\n"),
        }
    }
}

/// A way: what is done, what the group is then, and what that costs.
impl InWords for Outcome {
    ghost words = { outcome_lines };

    #[tactic(auto, unfolding(crate::specs::WaysWords::outcome_lines))]
    fn put(&self, page: &mut Page) -> Result<(), AllocError> {
        page.put_deed(self)?;
        page.put_then(&self.after)?;
        page.put_each("", self.price.intervals.as_slice())?;
        page.push_str(unreadable(self.price.unreadable))
    }
}

/// What a way costs by an interval.
impl InWords for IntervalNow {
    ghost words = { price_line };

    #[tactic(auto, unfolding(crate::specs::WaysWords::away_line, crate::specs::WaysWords::gone_line))]
    fn put(&self, page: &mut Page) -> Result<(), AllocError> {
        match self.writes {
            Writes::Readable => Ok(()),
            Writes::Away => {
                let epochs = page.epochs_in(self)?;
                let names = page.list(self.down.as_slice())?;
                let are = plural(self.down.len(), "is", "are");
                writeln!(
                    page,
                    "    it goes on without what was written in {epochs}, at least: {names}, which {are} down, may have it"
                )
            }
            Writes::Gone => {
                let epochs = page.epochs_in(self)?;
                writeln!(
                    page,
                    "    it goes on without what was written in {epochs}, at least: too few of the devices that took it are left"
                )
            }
        }
    }
}

fn heading(verdict: Verdict) -> &'static str
    ensures { result.now ≡ ways_heading verdict }
{
    match verdict {
        Verdict::Down => "\nWhat ends Down:\n",
        _ => "\nIt would be Down, too. What ends that:\n",
    }
}

/// Whether there may be ways that aren't listed.
pub(crate) fn may_be_more(ways: &Ways) -> bool
    ensures { result ≡ may_be_others ways.now }
{
    matches!(ways, Ways::Listed(listed) if listed.more)
}

/// What is said where no object can be read then.
fn unreadable(is: bool) -> &'static str
    ensures { result.now ≡ unreadable_line is }
{
    if is {
        "    no object can be read then: too few devices are left of all that ever served\n"
    } else {
        ""
    }
}
