// The rules of timing, and what each of them does differently.
ghost use Rattle.std.specs.Prelude.{◌≡◌};
ghost use Rattle.bits.specs.Faults.{number_of};
ghost use Rattle.standard.specs.Carried.{timing_by};
ghost use Rattle.timing.specs.Going.{going_in};
ghost use Rattle.rules.specs.Rules.{rule_said, CarriedRead, GoingRead, PassedBy, GoesOn};

use bits::Fault;
use timing::carried::Going;
use timing::frame::Frame;
use timing::updates::Timings;

// Every ramp ends in its frame, or the last one may end in a later frame.
#[derive(Clone, Copy, PartialEq, Eq)]
pub enum Rule {
    InFrame = 1,
    OverEdge = 2,
}

// No other number is known.
impl TryFrom<u32> for Rule {
    type Error = Fault;

    ghost use Rattle.rules.specs.Rules.{RuleRead};

    ghost try_from_gives = { RuleRead };

    fn try_from(number: u32) -> Result<Self, Fault> {
        match number {
            1 => Ok(Rule::InFrame),
            2 => Ok(Rule::OverEdge),
            _ => Err(Fault::UnknownRule),
        }
    }
}

// As calls these would take and give their structs by way of memory.
impl Rule {
    // What is carried into a frame: under rule 1 nothing, whatever is lent.
    #[inline(always)]
    pub fn going(self, state: &[u16; 3]) -> Result<Option<Going>, Fault>
        ensures { GoingRead (rule_said self) (going_in state.now) result }
    {
        match self {
            Rule::InFrame => Ok(None),
            Rule::OverEdge => Going::read(state),
        }
    }

    // With its rows.
    #[inline(always)]
    pub fn carried(self, state: &[u16; 3], carried: &[i16]) -> Result<Option<Going>, Fault>
        ensures { CarriedRead (rule_said self) (going_in state.now) carried.now result }
    {
        match self {
            Rule::InFrame => Ok(None),
            Rule::OverEdge => Going::read_with(state, carried),
        }
    }

    // `remains` samples of a carried ramp are left.
    #[inline(always)]
    pub fn test(self, timings: &Timings, remains: u32) -> Result<(), Fault>
        ensures { number_of result ≡ timing_by (rule_said self) remains timings.now }
    {
        match self {
            Rule::InFrame => timings.test_in_frame(),
            Rule::OverEdge => timings.test_over_edge(remains),
        }
    }

    // Behind a frame whose timings passed.
    #[inline(always)]
    pub fn carried_on(self, frame: &Frame, going: Option<Going>) -> Option<Going>
        requires { PassedBy (rule_said self) frame.now }
        ensures { GoesOn (rule_said self) frame.now going result }
    {
        match self {
            Rule::InFrame => None,
            Rule::OverEdge => frame.timings.carried_on(frame.objects, going),
        }
    }
}
