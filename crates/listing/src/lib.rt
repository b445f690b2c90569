// Text and numbers in columns, a block's bytes as a listing, recovery's list, and why a call failed.
#![tactic(auto)]

mod failure;
mod list;
mod marks;

pub use failure::fail;
pub use list::{block, stores, version};
pub use marks::{Grouped, Ungrouped, count, entry, plain, say};
