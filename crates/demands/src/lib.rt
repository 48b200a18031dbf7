// Demands 1, 2 and 3 about the calls of 01: from a start and packets, by image and opening, through any hand-overs and settlings to the report.
// It rests on the definitions that the code is proved to compute (encoder, sealing, reading, opening, session), on meaning and link, and on theory; it has no code.
#![tactic(auto)]
