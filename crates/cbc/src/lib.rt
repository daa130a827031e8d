// The CBC mode of SP 800-38A (6.2) as definitions over any block cipher, and their laws. There is no code here.
#![tactic(auto)]
