// Codes 49 to 51 as the calls that they are made of. The definitions are model's (specs/Joined.antt); the laws stand in
// proofs/. No function stands here.
#![tactic(auto)]
