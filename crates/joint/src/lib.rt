// The exchange of two sessions as the approver reads it: what the call leaves is the theory's exchange, and under demand 2's premises the joint closure.
// It rests on exchange and parts for what the call computes, on demands for each session, and on theory; it has no code.
#![tactic(auto)]
