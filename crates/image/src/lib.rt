// The image as a whole: it is read back as it was sealed, nothing but what sealing writes is read, and where its bytes stand.
// It rests on sealing and reading, which know nothing of each other, and on the block between them; it has no code.
#![tactic(auto)]
