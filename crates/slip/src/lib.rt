// Slips of both editions: their writer and their reader.
#![tactic(auto)]

mod layout;
mod read;
mod write;

use defs::LONGEST;
pub use layout::{Edition, layout_of};
pub use read::{edition_in, first_size, slip_read};
pub use write::slip_write;

// The bytes that a slip may have.
pub const LONGEST_SLIP: usize = 4 + (2 * LONGEST * 8 + 7) / 8;
