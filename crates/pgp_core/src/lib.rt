//! Scripts and their answers: [`run_script`] answers a script, line by line, on one thread, by the log that its lines make.
//!
//! A run has three parts: `Input` cuts the bytes that are read into lines, within bounds; an [`Answerer`] answers the
//! command of each; and `Output` keeps the answers until they are written.
#![tactic(auto)]

mod accepted;
mod answer;
mod codec;
mod counts;
mod fault;
mod input;
pub mod laws;
mod line;
mod log;
mod outcome;
mod output;
mod script;
mod session;
mod streams;
mod want;
mod whole;

pub use answer::{Answerer, NoReply, put_view};
pub use counts::EntryCounts;
pub use fault::ScriptFault;
pub use input::{Bounds, SCRIPT_BOUNDS, split_line};
pub use line::{LONGEST_LINE, all_blank};
pub use log::Log;
pub use outcome::LineOutcome;
pub use output::{WriteFault, pass_on};
pub use pgp_lines::Format;
pub use script::{answer_script, run_script, run_script_within};
pub use session::Session;
pub use streams::{Sink, Source};
pub use want::Want;
pub use whole::{WholeFault, first_line, read_whole};
