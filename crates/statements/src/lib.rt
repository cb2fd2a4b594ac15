// The three demands side by side: statements in specs/, what fills them in in proofs/. Nothing here runs.
#![tactic(auto)]
