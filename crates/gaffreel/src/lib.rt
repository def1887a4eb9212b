// The C interface: what a firmware links (include/gaffreel.h). Each module holds the exported calls of one part: those of the crates c_*
// below, under their names in C.
//
// A call takes numbers and byte slices, and one that can refuse answers a number: 0 where it was carried out, else that of
// a refusal (R71). After a refusal every buffer is as it was, but for one that receives what the
// refusal also returns; of several steps, those before the refused one stay made.
#![tactic(auto)]

pub mod hash_tree;
pub mod hmac_sha256;
pub mod keyed;
pub mod sha256;
pub mod volumes;
