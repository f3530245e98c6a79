// What a turn of the engine's loop makes of a node, by the rules: laws alone, on what the loop reads, decides and stores. No code is here.
#![tactic(auto)]
