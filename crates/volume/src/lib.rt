// The volume's calls. Advance is here; format, query and open, write and flush, read, verify, step and next_store are passed on from the crates that have them,
// with the bytes of the sector that a write or a read is lent. R35 to R51.
//
// Each call takes any volume, staging, sector, parameter or state, and gives exactly what the definition of its name in the model's specs gives, with
// the tag of R14: answer, state and every lent byte afterwards. No call has a `requires`.
#![tactic(auto)]

pub mod advance;

pub use layout::SECTOR_SIZE;
pub use volume_batch::{flush, write};
pub use volume_format::format;
pub use volume_open::{open, query};
pub use volume_read::read;
pub use volume_step::{next_store, step};
pub use volume_verify::verify;
