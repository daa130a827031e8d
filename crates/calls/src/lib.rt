// What lists of calls from C come to: each call gets a state as bytes, and leaves the bytes of the next one (crates
// states and exports). There is no code here: specs/ has what a call leaves and the claims, proofs/ the theorems, over
// the definitions that the contracts of the exported functions cite.
#![tactic(auto)]
