// No code: the protocol's model (server, client, rig), the single board, and the proof that every run of the one has a
// history of the other.
#![tactic(auto)]
