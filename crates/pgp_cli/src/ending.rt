//! How the program ends, and its exit statuses.

/// The status of [`Ending::Done`].
pub const DONE: u8 = 0;
/// The status of [`Ending::Usage`].
pub const USAGE: u8 = 2;
/// The status of [`Ending::Fault`].
pub const FAULT: u8 = 3;

/// How the program ended.
#[derive(Clone, Copy, Debug)]
pub enum Ending {
    /// The script was answered, explained or compacted to its end, or help was shown.
    Done,
    /// The command line is wrong, or there was no memory to read it or for the text of help.
    Usage,
    /// A read or a write failed, the script is too large, there is no engine to answer it, no such group to explain, or no
    /// memory to explain or compact it.
    Fault,
}

impl Ending {
    /// The status to exit with.
    pub fn status(self) -> u8 {
        match self {
            Ending::Done => DONE,
            Ending::Usage => USAGE,
            Ending::Fault => FAULT,
        }
    }
}
