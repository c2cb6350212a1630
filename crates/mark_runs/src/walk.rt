//! Two lists of marks, compared by runs: the lesser count of both is taken off at each step.
ghost use Rattle.std.specs.Prelude.{◌≡◌, ◌≤◌, ◌++◌, [], None, length};
ghost use Rattle.witness_order.specs.Shortlex.{shortlex};
ghost use Rattle.mark_runs.specs.Runs.{neighbours, marks_of_run, marks_of_front, marks_of_runs};

use crate::run::Run;
use std::cmp::Ordering;
use std::marker::Model;

/// Runs that are still to come, those of one list and then those of another, seen as their marks.
#[derive(Drop)]
pub(crate) struct Coming<'a> {
    first: &'a [Run],
    then: &'a [Run],
}

impl<'a> Model for Coming<'a> {
    ghost use Rattle.std.specs.Prelude.{List, ◌++◌};
    ghost use Rattle.shape_gen.specs.declared.mark.Mark.{Mark};
    ghost use Rattle.mark_runs.specs.Runs.{marks_of_runs};

    ghost Value = { List Mark };

    ghost view = { λ inside. marks_of_runs inside.first.now ++ marks_of_runs inside.then.now };
}

impl<'a> Coming<'a> {
    /// The runs of both lists.
    pub(crate) fn of(first: &'a [Run], then: &'a [Run]) -> Coming<'a>
        ensures { result ≡ marks_of_runs first.now ++ marks_of_runs then.now }
    {
        Coming { first, then }
    }

    // Takes the next run.
    fn next_run(&mut self) -> Option<Run>
        ensures taken { self.old ≡ marks_of_front result ++ self.new }
        ensures none_left { result ≡ None → self.new ≡ [] }
    {
        if let Some((run, rest)) = self.first.split_first() {
            self.first = rest;
            return Some(*run);
        }
        let (run, rest) = self.then.split_first()?;
        self.then = rest;
        Some(*run)
    }

    // What comes behind the first `count` marks of a run that was taken: the rest of the run, or the next one.
    fn behind(&mut self, run: Run, count: u32) -> Option<Run>
        requires { count ≤ run.count }
        ensures taken { marks_of_run run ++ self.old
            ≡ neighbours run.row count run.label ++ (marks_of_front result ++ self.new) }
        ensures none_left { result ≡ None → self.new ≡ [] }
    {
        if count < run.count {
            return Some(run.behind(count));
        }
        self.next_run()
    }
}

/// How the marks of two lists of one length compare.
pub(crate) fn compare_even(mut a: Coming, mut b: Coming) -> Ordering
    requires { length a ≡ length b }
    ensures { result ≡ shortlex a.entry b.entry }
{
    let mut left = a.next_run();
    let mut right = b.next_run();
    'walk: while let (Some(x), Some(y)) = (left, right) {
        match x.compare_first(y) {
            Ordering::Equal => {
                let count = x.count.min(y.count);
                left = a.behind(x, count);
                right = b.behind(y, count);
            }
            unequal => return unequal,
        }
    }
    Ordering::Equal
}
