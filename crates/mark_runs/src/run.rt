//! Runs of neighbouring rows. Which marks a run stands for is in specs/Runs.antt.
ghost use Rattle.std.specs.Prelude.{◌+◌, ◌≤◌};

use std::cmp::Ordering;

/// So many neighbouring rows, from `row` on, all with this label. The last row is below 2 ^ 32.
#[derive(Clone, Copy, Debug)]
pub struct Run {
    pub row: u32,
    pub count: u32,
    pub label: u32,
    ghost at_least_one: { 1 ≤ count },
    ghost rows_within: { row + count ≤ 4294967296 },
}

impl Default for Run {
    /// The run of the first row, with the first label.
    fn default() -> Run {
        Run {
            row: 0,
            count: 1,
            label: 0,
        }
    }
}

impl Run {
    ghost use Rattle.std.specs.Prelude.{◌≡◌, ◌<◌, ◌++◌, IfSome};
    ghost use Rattle.witness_order.specs.Shortlex.{mark_order};
    ghost use Rattle.mark_runs.specs.Runs.{first_mark, neighbours, marks_of_run};

    /// How the first mark of one compares with the first mark of the other.
    pub(crate) fn compare_first(self, other: Run) -> Ordering
        ensures { result ≡ mark_order (first_mark self) (first_mark other) }
    {
        self.row.cmp(&other.row).then(self.label.cmp(&other.label))
    }

    /// The run behind the first `count` marks of this one.
    pub(crate) fn behind(self, count: u32) -> Run
        requires { count < self.count }
        ensures { marks_of_run self ≡ neighbours self.row count self.label ++ marks_of_run result }
    {
        Run {
            row: self.row + count,
            count: self.count - count,
            label: self.label,
        }
    }

    /// Both runs as one, where the other goes on with the next row and the same label.
    pub(crate) fn and_on(self, other: Run) -> Option<Run>
        ensures { IfSome result (λ run. marks_of_run run ≡ marks_of_run self ++ marks_of_run other) }
    {
        let next = u64::from(self.row) + u64::from(self.count);
        if next != u64::from(other.row) || self.label != other.label {
            return None;
        }
        let count = self.count.checked_add(other.count)?;
        let (row, label) = (self.row, self.label);
        Some(Run { row, count, label })
    }
}
