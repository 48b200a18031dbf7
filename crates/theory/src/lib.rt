// FlowRadar's encoding and peeling, over any placement of keys on cells and any key length: no bytes, no hash, no filter.
// It rests on laws alone, and has no code: definitions stand in specs/, theorems in proofs/.
#![tactic(auto)]
