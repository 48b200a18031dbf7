// What the printing program prints is true: from a start and the packets taken, by the sealed image, to the printed bytes.
// It rests on demands for demand 2, on printing for the bytes, and on the definitions that the code is proved to compute; it has no code.
#![tactic(auto)]
