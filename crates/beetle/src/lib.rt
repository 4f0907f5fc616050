//! PHOTON-Beetle: hash and authenticated encryption, written once for every engine and every lawful rate.
#![tactic(auto)]

mod blocks;
mod hashing;
mod mode;
mod opening;
mod rate;
mod sealing;
mod sizes;
mod sponge;

pub use hashing::hash;
pub use opening::open;
pub use rate::{Rate, Rate32, Rate128};
pub use sealing::seal;
pub use sizes::{DIGEST_BYTES, LONGEST_TEXT, TAG_BYTES};

#[cfg(test)]
mod tests;
