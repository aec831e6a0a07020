// The rules that are tested.
ghost use Rattle.std.specs.Prelude.{◌≡◌};
ghost use Rattle.htl_refine.specs.Rules.{refinement_rule_number, judges_refined_inputs as judges_inputs_of};

/// A form rule on refinement.
#[derive(Clone, Copy)]
pub enum Rule {
    /// 13: an abstract invocation stands only in a refined mode.
    AbstractPlaces,
    /// 14: an invocation of a refinement has an abstract parent in the refined mode, and a root invocation has none.
    Parents,
    /// 15: invocations with one parent stand in one module and in different modes.
    SharedParents,
    /// 16: an invocation asks for no more than its parent, and follows by ports only what its parent follows.
    Inheritance,
}

/// The rules in the order of their numbers.
pub const RULES: [Rule; 4] = [
    Rule::AbstractPlaces,
    Rule::Parents,
    Rule::SharedParents,
    Rule::Inheritance,
];

impl Rule {
    /// The number by which the rule is told, 13 to 16.
    pub fn number(self) -> u8
        ensures { result ≡ refinement_rule_number self }
    {
        match self {
            Rule::AbstractPlaces => 13,
            Rule::Parents => 14,
            Rule::SharedParents => 15,
            Rule::Inheritance => 16,
        }
    }
    /// Whether the rule speaks of inputs.
    pub fn judges_inputs(self) -> bool
        ensures { result ≡ judges_inputs_of self }
    {
        matches!(self, Rule::Inheritance)
    }
}
