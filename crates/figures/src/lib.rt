// No code: document 01's figures, those of boards shorter than the block, those of a record of kind 9, those of the load and those of ranks: a theorem each.
#![tactic(auto)]
