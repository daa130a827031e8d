// SHA-2 as FIPS 180-4 defines it, for any width of word: the definitions (specs/Fips180), a hash under way
// (specs/Hashing, specs/Feeds), the laws over the width (proofs/Laws), and the code, generic over the word.
//
// The crates sha256 and sha512 are this code at u32 and u64: each word has its `Algorithm` here, with its sizes and its
// constants. Another crate may lend constants, and bring a `Word` of its own. The reading of a word that is known to be
// there stays in this crate, since it requires that.
#![tactic(auto)]

mod algorithm;
mod block;
mod constants;
mod reading;
mod rounds;
mod state;
mod tables;
mod word;

pub use rounds::Working;
pub use state::{Fed, State};
pub use word::Word;

#[cfg(test)]
mod tests;
