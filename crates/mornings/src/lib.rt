// No code: the marked mornings of document 01.
#![tactic(auto)]
