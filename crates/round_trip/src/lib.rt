// Plan text that is written is read back, and plan text that is read is written back: laws alone. No code is here.
#![tactic(auto)]
