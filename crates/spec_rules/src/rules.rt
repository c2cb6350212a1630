//! The first rule that a specification breaks.

ghost use Rattle.std.specs.Prelude.{◌≡◌, map};
ghost use Rattle.gta_spec.specs.Parts.{part_tree, spec_tree};
ghost use Rattle.spec_rules.specs.SpecRules.{limit_fault, rule_fault};

use crate::fault::RuleFault;
use crate::limits::passed_limit;
use crate::parts_once::{labels_assign, missing, second_part};
use gta_spec::{Part, PartKind, Spec};

/// The first rule that the specification breaks, or None: a part that is missing, a second part, labels without
/// assignments or assignments without labels, a limit. One pass over the lines for each; it takes no memory.
#[tactic(auto, unfolding(crate::specs::SpecRules::rule_fault))]
pub fn rule_fault(spec: &Spec) -> Option<RuleFault>
    ensures { result ≡ rule_fault (spec_tree spec.now) }
{
    let parts = spec.parts.as_slice();
    if let Some(part) = missing(parts) {
        return Some(RuleFault::Missing { part });
    }
    if let Some(fault) = second_part(parts) {
        return Some(fault);
    }
    if let Some(fault) = labels_assign(parts) {
        return Some(fault);
    }
    limit_fault(parts)
}

/// The first line that passes a limit, with the first limit that it passes.
fn limit_fault(parts: &[Part]) -> Option<RuleFault>
    ensures { result ≡ limit_fault (map part_tree parts.now) }
{
    let mut measures = 0;
    let mut tables = 0;
    let mut automata = 0;
    let mut tests = 0;
    for part in parts {
        let earlier = match part.kind {
            PartKind::Measure(_) => measures,
            PartKind::Table(_) => tables,
            PartKind::Automaton(_) => automata,
            PartKind::Test(_) => tests,
            PartKind::Named { .. } => tests,
            _ => 0,
        };
        if let Some(limit) = passed_limit(earlier, &part.kind) {
            return Some(RuleFault::Limit {
                line: part.line,
                limit,
            });
        }
        match part.kind {
            PartKind::Measure(_) => measures += 1,
            PartKind::Table(_) => tables += 1,
            PartKind::Automaton(_) => automata += 1,
            PartKind::Test(_) => tests += 1,
            PartKind::Named { .. } => tests += 1,
            _ => {}
        }
    }
    None
}
