//! A candidate as a list of marks.

ghost use Rattle.std.specs.Prelude.{◌≡◌};
ghost use Rattle.gta_checked.specs.Within.{IsWithinLimits};
ghost use Rattle.gta_meaning.specs.InRange as in_range;

use gta_checked::Checked;
use shape_gen::Mark;

/// The marks that a candidate takes, by ascending rows.
#[derive(Debug, Drop)]
pub struct Candidate {
    pub marks: Vec<Mark>,
}

/// How many labels a mark may have: 1 where none are declared. Takes no memory.
pub fn label_count(checked: &Checked) -> u32
    ensures labels { result ≡ in_range.label_count checked.now }
    ensures within { IsWithinLimits checked.now }
{
    checked.labels().len().max(1) as u32
}
