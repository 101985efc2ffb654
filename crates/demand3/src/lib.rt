// No code: demand 3, that a table that passes the check never sticks.
#![tactic(auto)]
