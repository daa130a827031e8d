// The field GF(2^8) and the S-box of FIPS 197 as definitions, and their laws. There is no code here.
#![tactic(auto)]
