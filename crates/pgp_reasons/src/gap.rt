/// Numbers of writes that a log lacks.
#[derive(Clone, Copy)]
pub struct Gap {
    pub first: u32,
    /// The last, which it lacks too.
    pub last: u32,
}
