// Where the place of a refusal lies, and which field or item begins there (document 02, Item 8). There is no code here:
// specs/ has the claims, proofs/ the theorems, over the definitions that the contracts of the readers, the openers and
// the writers cite.
#![tactic(auto)]
