// The static library for C and Rust: `rt lib` in this folder writes out/libexports.a. include/kdbx4.h declares what is
// in it.
//
//   hashes          SHA-256 and SHA-512, whole and in parts, HMAC-SHA-256
//   encryption      AES-256-CBC, ChaCha20 and Salsa20, in place
//   derivation      composite key, AES-KDF whole and in parts, Argon2, cipher key, tag keys
//   header          the outer header, and its listing
//   dictionaries    checking, and finding a name
//   vaults          opening, whole and block by block, and writing, under the transformed key T
//   inner           the inner header, its attachments, and its writing
//   streams         the inner stream: a stretch from the inner key, and a state that carries over
// In C a slice is a pointer and a length, and an array or a number that is lent a pointer. A function that can refuse
// answers document 01's number: 0 is success, and a refusal changes no lent byte but a reader's place (document 02, Item
// 8), which is 0 on success. Figures are lent as an array of numbers. A state is lent as an array of bytes, which crate
// states reads and writes. The contracts cite the operations' own definitions; specs/Lent says what is left in lent
// memory, and crate calls' specs/Calls what is left of a lent state; what lists of calls come to is proved there.
#![tactic(auto)]

mod derivation;
mod dictionaries;
mod encryption;
mod hashes;
mod header;
mod inner;
mod streams;
mod vaults;
