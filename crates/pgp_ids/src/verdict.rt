ghost use Rattle.std.specs.Prelude.{◌≡◌};
ghost use Rattle.pgp_ids.specs.Names.{verdict_name};

/// Whether a placement group may serve, and if not, what it waits for. The first that holds, in this order.
#[derive(Clone, Copy, Debug, PartialEq, Eq)]
pub enum Verdict {
    /// No device of the acting set is there to lead.
    NoPrimary,
    /// A past interval that may have taken writes can't be reckoned with while some of its devices are down.
    Down,
    /// A member that has to be heard hasn't been.
    Waiting,
    /// No member has a complete copy that is recent enough.
    Incomplete,
    /// The acting set has too few members.
    Short,
    /// The log of the best copy isn't whole.
    NeedLog,
    /// The map has yet to say that the primary is up in this interval.
    NeedUpThru,
    /// It serves.
    Serve,
}

impl Verdict {
    /// Its name in answers.
    pub fn name(self) -> &'static str
        ensures { result.now ≡ verdict_name self }
    {
        match self {
            Verdict::NoPrimary => "NoPrimary",
            Verdict::Down => "Down",
            Verdict::Waiting => "Waiting",
            Verdict::Incomplete => "Incomplete",
            Verdict::Short => "Short",
            Verdict::NeedLog => "NeedLog",
            Verdict::NeedUpThru => "NeedUpThru",
            Verdict::Serve => "Serve",
        }
    }
}
