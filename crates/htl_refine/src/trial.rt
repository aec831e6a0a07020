// What each rule's tests find: at an invocation, an input.
use crate::order::Order;
use crate::refining::{excess_fault, order_fault, parent_fault, place_fault, shared_fault};
use crate::rule::Rule;
use htl_model::search::{EndSite, Tries};
use htl_model::{Inv, Mode, Tables};

impl Tries<Rule> for Order {
    ghost use Rattle.htl_refine.specs.Orders.{IsOrderOf};
    ghost use Rattle.htl_refine.specs.Rules.{refinement_rule_number};
    ghost use Rattle.htl_refine.specs.Tests.{tests as tests_of};

    ghost tests = { tests_of };

    ghost number = { refinement_rule_number };

    ghost counted = { IsOrderOf };

    fn number(rule: Rule) -> u8 {
        rule.number()
    }

    fn judges_inputs(rule: Rule) -> bool {
        rule.judges_inputs()
    }

    fn judges_outputs(_rule: Rule) -> bool {
        false
    }

    fn judges_switches(_rule: Rule) -> bool {
        false
    }

    fn of_mode(&self, _t: &Tables, _rule: Rule, _m: u16, _mode: &Mode) -> Option<(u64, u64)> {
        None
    }

    fn of_test(_t: &Tables, _rule: Rule, _m: u16, _comm: u16) -> Option<(u64, u64)> {
        None
    }

    // What the rule finds at an invocation as a whole.
    fn of_inv(&self, t: &Tables, rule: Rule, k: u16, inv: &Inv) -> Option<(u64, u64)> {
        match rule {
            Rule::AbstractPlaces => place_fault(t, inv),
            Rule::Parents => parent_fault(t, inv),
            Rule::SharedParents => shared_fault(t, k, inv),
            Rule::Inheritance => excess_fault(t, inv),
        }
    }

    // What it finds at an input of an invocation.
    fn of_input(&self, t: &Tables, rule: Rule, site: EndSite<'_>) -> Option<(u64, u64)> {
        match rule {
            Rule::Inheritance => order_fault(t, self, site.inv, site.end),
            _ => None,
        }
    }

    fn of_output(&self, _t: &Tables, _rule: Rule, _site: EndSite<'_>) -> Option<(u64, u64)> {
        None
    }
}
