// The same vault in other blocks (document 02, Item 13): an accepted file's ciphertext, cut anew into blocks of any
// positive sizes that add up to it, behind the file's own header, hash and tag, is accepted with the same payload by
// both openers. There is no code here: specs/ has the claim, proofs/ the theorem, over the definitions that the
// contracts of `vault::open`, `vault::start` and `opener::step` cite.
#![tactic(auto)]
