//! Network sheets: link records as bytes, read and written.

#![tactic(auto)]

pub mod kinds;
pub mod loading;
mod reader;
pub mod reading;
pub mod writing;

pub use kinds::SheetKind;
pub use loading::load;
pub use reading::{Counts, read};
pub use writing::write;
