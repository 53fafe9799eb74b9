// What fly and mirror read, the ticks flown, the lines that the programs print, and what they say where something goes wrong.
#![tactic(auto)]

mod compare;
mod digits;
mod errors;
mod flown;
mod input;
mod line;
mod log;
mod opening;
mod page;
mod program;
mod report;
mod track;
mod verdict;

pub use flown::Flown;
pub use log::{Log, fly_ticks};
pub use opening::airframe_wanted;
pub use page::{PAGE_BYTES, Page};
pub use program::fly_file;
pub use track::Track;
