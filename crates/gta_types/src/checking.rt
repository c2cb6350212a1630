//! The check of a specification: its faults in their order, and its names resolved to numbers.

ghost use Rattle.std.specs.Prelude.{◌≡◌, IfOk};
ghost use Rattle.outcome_kit.specs.Outcome.{Tells};
ghost use Rattle.gta_spec.specs.Parts.{spec_tree};
ghost use Rattle.gta_spec.specs.WellFormed.{IsWellFormed};
ghost use Rattle.gta_types.specs.Resolved.{IsResolved};
ghost use Rattle.gta_types.specs.ResolvedOf.{checked_outcome};
ghost use Rattle.gta_types.specs.Faults.{fault_in, fault_of_rule, limit_word, part_word};

use crate::fault::CheckFault;
use crate::joining::resolve;
use crate::naming::check_names;
use gta_checked::Checked;
use gta_spec::Spec;
use gta_text::Name;
use spec_automata::checked_automata;
use spec_rules::{Limit, RuleFault, SinglePart, rule_fault};
use spec_tables::checked_tables;
use std::alloc::{AllocError, Global};

/// The specification with its names resolved to numbers.
/// Of several faults the first in their order is answered: unknown names, names declared twice, missing parts,
/// second parts, labels and assignments, limits, tables, automata. Takes memory for an index of the declared names.
pub fn check(alloc: Global, spec: &Spec) -> Result<Checked, CheckFault>
    requires well_formed { IsWellFormed (spec_tree spec.now) }
    ensures tells { Tells fault_in (λ checked. checked) (checked_outcome (spec_tree spec.now)) result }
    ensures resolved { IfOk result (IsResolved (spec_tree spec.now)) }
{
    check_names(alloc, spec.parts.as_slice())?;
    if let Some(fault) = rule_fault(spec) {
        return Err(fault_of_rule(alloc, fault)?);
    }
    let tables = checked_tables(alloc, spec.parts.as_slice())?;
    let automata = checked_automata(alloc, spec.parts.as_slice())?;
    Ok(resolve(alloc, spec, tables, automata)?)
}

fn part_word(part: SinglePart) -> &'static [u8]
    ensures { result.now ≡ part_word part }
{
    match part {
        SinglePart::Columns => b"columns",
        SinglePart::Labels => b"labels",
        SinglePart::Generate => b"generate",
        SinglePart::Aggregate => b"aggregate",
        SinglePart::Keep => b"keep",
    }
}

fn limit_word(limit: Limit) -> &'static [u8]
    ensures { result.now ≡ limit_word limit }
{
    match limit {
        Limit::Name => b"name",
        Limit::Header => b"header",
        Limit::Columns => b"columns",
        Limit::Labels => b"labels",
        Limit::Measures => b"measures",
        Limit::Tables => b"tables",
        Limit::Tests => b"tests",
        Limit::Elements => b"elements",
        Limit::Cases => b"cases",
        Limit::Terms => b"terms",
        Limit::Atoms => b"atoms",
        Limit::Factor => b"factor",
        Limit::Bound => b"bound",
        Limit::Modulus => b"modulus",
        Limit::Residue => b"residue",
        Limit::Kept => b"k",
        Limit::Automata => b"automata",
        Limit::States => b"states",
        Limit::Letters => b"letters",
    }
}

/// The fault with the word of its part or limit.
fn fault_of_rule(alloc: Global, fault: RuleFault) -> Result<CheckFault, AllocError>
    ensures { IfOk result (λ end. end ≡ fault_of_rule fault) }
{
    match fault {
        RuleFault::Missing { part } => {
            let part = Name::of(alloc, part_word(part))?;
            Ok(CheckFault::Missing { part })
        }
        RuleFault::SecondPart { line, part } => {
            let part = Name::of(alloc, part_word(part))?;
            Ok(CheckFault::SecondPart { line, part })
        }
        RuleFault::LabelsAssign { line, assign } => Ok(CheckFault::LabelsAssign { line, assign }),
        RuleFault::Limit { line, limit } => {
            let limit = Name::of(alloc, limit_word(limit))?;
            Ok(CheckFault::Limit { line, limit })
        }
    }
}
