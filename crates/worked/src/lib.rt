// The starred cases of document 01, Checked by hand: a table in specs/, its proof in proofs/. There is nothing to run.
#![tactic(auto)]
