// The membership machine: views alone, without queues. It has no code; proofs/ shows that its attempted views
// intersect.
#![tactic(auto)]
