// The rules that are tested.
ghost use Rattle.std.specs.Prelude.{◌≡◌, ◌≤◌};
ghost use Rattle.htl_form.specs.Rules.{rule_number, judges_inputs as judges_inputs_of, judges_outputs as judges_outputs_of, judges_switches as judges_switches_of};

/// A form rule.
#[derive(Clone, Copy)]
pub enum Rule {
    /// 1: the modes of a module have one period; in a refinement it is the refined mode's.
    ModulePeriod,
    /// 2: the least common multiple of the root periods up to each root module, the starts of a frame, its paths and the positions in
    /// a path are within the limits of frames.
    FrameLimits,
    /// 3: a communicator's period divides that of each mode that reads, writes or tests it.
    Divides,
    /// 4: a read lies before the period's end; a write lies behind its start, and not behind its end.
    Offsets,
    /// 5: inputs and outputs are as many as the task's, and of its types.
    Ends,
    /// 6: a window isn't empty.
    Windows,
    /// 7: a worst case isn't longer than the period.
    WorstCases,
    /// 8: a port has one writer, or none where nobody reads it.
    PortWriters,
    /// 9: ports make no cycle.
    PortCycles,
    /// 10: a concrete invocation reads no port that an abstract one writes.
    AbstractPorts,
    /// 11: no sensor is written.
    Sensors,
    /// 12: what a concrete invocation writes, no other that can run beside it writes.
    ConcreteWriters,
}

/// The rules in the order of their numbers.
pub const RULES: [Rule; 12] = [
    Rule::ModulePeriod,
    Rule::FrameLimits,
    Rule::Divides,
    Rule::Offsets,
    Rule::Ends,
    Rule::Windows,
    Rule::WorstCases,
    Rule::PortWriters,
    Rule::PortCycles,
    Rule::AbstractPorts,
    Rule::Sensors,
    Rule::ConcreteWriters,
];

impl Rule {
    /// The number by which the rule is told, 1 to 12.
    pub fn number(self) -> u8
        ensures { result ≡ rule_number self }
    {
        match self {
            Rule::ModulePeriod => 1,
            Rule::FrameLimits => 2,
            Rule::Divides => 3,
            Rule::Offsets => 4,
            Rule::Ends => 5,
            Rule::Windows => 6,
            Rule::WorstCases => 7,
            Rule::PortWriters => 8,
            Rule::PortCycles => 9,
            Rule::AbstractPorts => 10,
            Rule::Sensors => 11,
            Rule::ConcreteWriters => 12,
        }
    }

    /// Whether the rule speaks of inputs.
    pub fn judges_inputs(self) -> bool
        ensures { result ≡ judges_inputs_of self }
    {
        matches!(
            self,
            Rule::Divides | Rule::Offsets | Rule::Ends | Rule::PortWriters | Rule::AbstractPorts
        )
    }

    /// Whether the rule speaks of outputs.
    pub fn judges_outputs(self) -> bool
        ensures { result ≡ judges_outputs_of self }
    {
        matches!(
            self,
            Rule::Divides
                | Rule::Offsets
                | Rule::Ends
                | Rule::PortWriters
                | Rule::Sensors
                | Rule::ConcreteWriters
        )
    }

    /// Whether the rule speaks of what switches read.
    pub fn judges_switches(self) -> bool
        ensures { result ≡ judges_switches_of self }
    {
        matches!(self, Rule::Divides)
    }
}
