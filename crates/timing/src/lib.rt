// A frame's timings: the timing test and the ramp choice, as joc_renderer.rs has them, what is carried over its edge, and two calls.
#![tactic(auto, unfolding(standard::specs::Numbers::computed, standard::specs::Timing::computed, standard::specs::Ramps::computed, standard::specs::Carried::computed, standard::specs::Calls::computed, standard::specs::CarriedCalls::computed, crate::specs::Going::whole))]

pub mod calls;
pub mod carried;
pub mod edges;
pub mod frame;
pub mod numbers;
pub mod ramps;
pub mod updates;
