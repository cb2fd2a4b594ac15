// The sum from history: definitions in specs/, the proof of the claim in proofs/. Nothing here runs.
#![tactic(auto)]
