// The paper: definitions in specs/ and theorems about them in proofs/. There is no code here.
#![tactic(auto)]
