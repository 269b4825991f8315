// Section 6 of the scope document as definitions, and the proof of demand 3. No function stands here.
#![tactic(auto)]
