//! What became of a call, and the number by which C knows it.

ghost use Rattle.std.specs.Prelude.{◌≡◌};
ghost use Rattle.pgp_c.specs.Status.{status_number};

use std::alloc::AllocError;

/// What became of a call.
#[derive(Clone, Copy)]
pub enum Status {
    /// It did what its name says.
    Done,
    /// It did, and the room is too small for what it gives, and stays as it was.
    RoomTooSmall,
    /// It was out of memory, and the log is as before.
    NoMemory,
    /// The session isn't open.
    NotOpen,
    /// The session is open already.
    AlreadyOpen,
    /// An argument is out of its range, or no name of an object, and nothing happened.
    BadArgument,
    /// No list of the objects that the member lacks is known.
    NoList,
    /// No lines were found that may stand for the log.
    NoLines,
}

impl Status {
    /// The number by which C knows it.
    pub fn number(self) -> u32
        ensures { result ≡ status_number self }
    {
        match self {
            Status::Done => 0,
            Status::RoomTooSmall => 1,
            Status::NoMemory => 2,
            Status::NotOpen => 3,
            Status::AlreadyOpen => 4,
            Status::BadArgument => 5,
            Status::NoList => 6,
            Status::NoLines => 7,
        }
    }
}

impl From<AllocError> for Status {
    ghost use Rattle.std.specs.Prelude.{◌≡◌};
    ghost use Rattle.pgp_c.specs.declared.status.Status.TheVariants.{NoMemory};

    ghost from_gives = { λ _ status. status ≡ NoMemory };

    fn from(_error: AllocError) -> Status {
        Status::NoMemory
    }
}
