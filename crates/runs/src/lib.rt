// No code: runs, and what holds of every state that a run can reach.
#![tactic(auto)]
