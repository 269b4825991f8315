// Demand 3 at the C boundary: the claim on a list of calls through `boundary_call`, and its proof. No function stands here.
#![tactic(auto)]
