// A ciphertext in blocks of any sizes: how it is cut, and how its blocks stand in a file. There is no code here: specs/
// has the definitions that the writer's contracts and the theorems about files cite, proofs/ their laws.
#![tactic(auto)]
