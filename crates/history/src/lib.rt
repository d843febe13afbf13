// What a hall's calls answer and leave, the histories of calls, and the laws of every history: definitions and
// proofs, and no code. The hall's contracts cite them.
#![tactic(auto)]
