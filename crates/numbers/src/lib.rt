// No code: definitions are in specs/, their laws in proofs/.
#![tactic(auto)]
