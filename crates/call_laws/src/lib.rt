// From what the calls on the trackers leave to what a call on head and buffers leaves: the chain of refusals, link by link,
// and the laws that join the trackers. The definitions are model's (specs/Call.antt); the laws stand in proofs/, what the
// contracts of the calls cite in specs/. No function stands here.
#![tactic(auto)]
