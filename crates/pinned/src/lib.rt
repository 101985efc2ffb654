// No code: that no two different replies can satisfy one call's promise.
#![tactic(auto)]
