// What the encoder's working memory means: the bytes of filter and cells, after any packets, are the theory's encoding of the flows taken.
// It rests on encoder and theory, and alone knows both; it has no code: definitions stand in specs/, theorems in proofs/.
#![tactic(auto)]
