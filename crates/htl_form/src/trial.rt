// What each rule's tests find: at a mode, an invocation, an end.
use crate::abstract_ports::abstract_read_fault;
use crate::cycles::cycle_fault;
use crate::ends::{
    count_fault, input_types, output_types, read_offset_fault, sensor_fault, type_fault,
    write_offset_fault,
};
use crate::frame_rule::frame_fault;
use crate::overview::Overview;
use crate::periods::{divides_fault, end_divides_fault, module_period_fault};
use crate::ports::{rewritten_fault, unwritten_fault};
use crate::rule::Rule;
use crate::windows::{window_fault, worst_case_fault};
use crate::writers::writer_fault;
use htl_model::search::{EndSite, Tries};
use htl_model::{Inv, Mode, Tables};

impl Tries<Rule> for Overview {
    ghost use Rattle.htl_form.specs.Overviews.{IsOverviewOf};
    ghost use Rattle.htl_form.specs.Rules.{rule_number};
    ghost use Rattle.htl_form.specs.Tests.{tests as tests_of};

    ghost tests = { tests_of };

    ghost number = { rule_number };

    ghost counted = { IsOverviewOf };

    fn number(rule: Rule) -> u8 {
        rule.number()
    }

    fn judges_inputs(rule: Rule) -> bool {
        rule.judges_inputs()
    }

    fn judges_outputs(rule: Rule) -> bool {
        rule.judges_outputs()
    }

    fn judges_switches(rule: Rule) -> bool {
        rule.judges_switches()
    }

    // What the rule finds at a mode itself.
    fn of_mode(&self, t: &Tables, rule: Rule, m: u16, mode: &Mode) -> Option<(u64, u64)> {
        match rule {
            Rule::ModulePeriod => module_period_fault(t, mode),
            Rule::FrameLimits => frame_fault(t, self.frame, m),
            _ => None,
        }
    }

    // What it finds at a communicator that a switch of a mode reads.
    fn of_test(t: &Tables, rule: Rule, m: u16, comm: u16) -> Option<(u64, u64)> {
        match rule {
            Rule::Divides => divides_fault(t, m, comm),
            _ => None,
        }
    }

    // What it finds at an invocation as a whole.
    fn of_inv(&self, t: &Tables, rule: Rule, k: u16, inv: &Inv) -> Option<(u64, u64)> {
        match rule {
            Rule::Ends => count_fault(t, inv),
            Rule::Windows => window_fault(t, inv),
            Rule::WorstCases => worst_case_fault(t, inv),
            Rule::PortCycles => cycle_fault(t, &self.survey, k, inv),
            _ => None,
        }
    }

    // What it finds at an input of an invocation.
    fn of_input(&self, t: &Tables, rule: Rule, site: EndSite<'_>) -> Option<(u64, u64)> {
        let EndSite {
            inv,
            place,
            end,
            ..
        } = site;
        match rule {
            Rule::Divides => end_divides_fault(t, inv, end),
            Rule::Offsets => read_offset_fault(t, inv, end),
            Rule::Ends => type_fault(t, input_types(t, inv.task), place, end),
            Rule::PortWriters => unwritten_fault(t, &self.survey, end),
            Rule::AbstractPorts => abstract_read_fault(t, &self.abstract_ports, inv, place, end),
            _ => None,
        }
    }

    // What it finds at an output of an invocation.
    fn of_output(&self, t: &Tables, rule: Rule, site: EndSite<'_>) -> Option<(u64, u64)> {
        match rule {
            Rule::Divides => end_divides_fault(t, site.inv, site.end),
            Rule::Offsets => write_offset_fault(t, site.inv, site.end),
            Rule::Ends => type_fault(t, output_types(t, site.inv.task), site.place, site.end),
            Rule::PortWriters => rewritten_fault(t, &self.survey, site),
            Rule::Sensors => sensor_fault(t, site.place, site.end),
            Rule::ConcreteWriters => writer_fault(t, &self.survey, site),
            _ => None,
        }
    }
}
