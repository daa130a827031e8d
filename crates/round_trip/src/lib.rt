// What the writer writes, with any of the three KDFs, both openers open to the same payload (the request's demand 2),
// and the worked numbers of document 01, which are AES-KDF's, as one table. There is no code here: specs/ has the
// claims, proofs/ the theorems, over the definitions that the contracts of `writer::write`, `vault::open`,
// `vault::start` and `opener::step` cite.
#![tactic(auto)]
