/// What has become of a device of a past interval.
#[derive(Clone, Copy, Debug, PartialEq, Eq)]
pub enum Status {
    /// It is up, so that it can be asked.
    Up,
    /// It was destroyed, and what it held with it.
    Gone,
    /// It was given up for lost after the interval began: what it held isn't waited for.
    Lost,
    /// It is down, and may come back with what it held.
    Down,
}
