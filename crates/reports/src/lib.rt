//! What the programs `trees` and `trees_report` print of a sheet.

#![tactic(auto)]

pub mod answers;
pub mod lines;
mod listing;
mod loading;
pub mod many;
pub mod reporting;
mod shown;
pub mod sinks;
mod totals;

pub use answers::{Answer, Contents, Kind};
pub use lines::{answer, kind_of, line};
pub use many::{MOST, Sheets};
pub use reporting::report;
pub use sinks::{Printer, Sink};
