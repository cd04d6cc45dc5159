// Writing, on paper: bits that numbers are written in, and laws that reading gives those numbers back. There is no code here.
#![tactic(auto)]
