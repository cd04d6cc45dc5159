// A programme of frames on paper, and the theorems of ramps over the frame edge. There is no code here.
#![tactic(auto)]
