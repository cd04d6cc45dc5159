// The calls by rule: the timing test, the ramp choice, and what goes over a frame's end.
#![tactic(auto, unfolding(standard::specs::Numbers::computed, standard::specs::Carried::computed, standard::specs::CarriedCalls::computed))]

pub mod calls;
mod rule;
