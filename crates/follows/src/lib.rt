// Calls over records follow each other as calls over numbers do, so that what is proved of sessions in number slices is said of sessions in records.
// It rests on calls and on the definitions of what the calls do; it has no code.
#![tactic(auto)]
