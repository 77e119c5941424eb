//! Worked answers, which the definitions compute, and how the faults of lines are written.

pub mod faults;
pub mod replies;
