// A run, whatever is run: its definition in specs/, its laws in proofs/. The code of a run stands with what is run.

#![tactic(auto)]
