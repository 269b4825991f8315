// What the reads refuse as 3, exactly: of the instance table alone, and of the head alone; what they find after any list of
// calls; and which instance the writer lookup names. The reads' definitions are model's (specs/Reads.antt); specs/ here has
// what is claimed of the lookup, proofs/ the laws. No function stands here.
#![tactic(auto)]
