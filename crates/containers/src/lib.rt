// A writer of containers on paper, and the theorem that the call on containers gives back what it wrote. There is no code here.
#![tactic(auto)]
