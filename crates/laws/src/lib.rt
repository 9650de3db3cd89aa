// No code: what several crates need of lists, numbers and sets of servers.
#![tactic(auto)]
