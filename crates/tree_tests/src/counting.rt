//! A plan whose values count the rows of their interval, and whose rows are edited.

ghost use Rattle.std.specs.Prelude.{◌≡◌};

use interval_kit::Fused;
use interval_tree::Editable;
use std::alloc::{AllocError, Global};
use std::sync::atomic::{AtomicU64, Ordering};
use std::sync::ledger::Ledger;
use step_count::Steps;

/// The value of an interval is the number of its rows. Calls of leaf and join are counted from 1, and the one of this
/// number finds no memory.
#[derive(Drop)]
pub struct Counting {
    pub rows: u32,
    pub calls: AtomicU64,
    pub refused: u64,
}

impl Counting {
    /// A plan of so many rows, of whose calls the one of this number finds no memory; 0 is none.
    pub fn new(rows: u32, refused: u64) -> Counting
        ensures rows { result.rows ≡ rows }
        ensures refused { result.refused ≡ refused }
    {
        Counting {
            rows,
            calls: AtomicU64::new(0),
            refused,
        }
    }

    fn call(&self) -> Result<(), AllocError> {
        let number = self.calls.fetch_add(1, Ordering::SeqCst).wrapping_add(1);
        if number == self.refused {
            return Err(AllocError);
        }
        Ok(())
    }
}

impl Fused for Counting {
    type Value = u32;

    ghost use Rattle.std.specs.Prelude.{◌≡◌, ◌-◌};

    ghost rows = { λ p. p.rows };

    ghost stands = { λ p lo hi value. value ≡ hi - lo };

    ghost leaf_bound = { λ p rows. 0 };

    ghost join_bound = { λ p. 0 };

    fn rows(&self) -> u32 {
        self.rows
    }

    fn leaf<L: Ledger>(
        &self,
        _alloc: Global,
        lo: u32,
        hi: u32,
        _steps: &mut Steps<L>,
    ) -> Result<u32, AllocError> {
        self.call()?;
        Ok(hi - lo)
    }

    fn join<L: Ledger>(
        &self,
        _alloc: Global,
        _lo: u32,
        _mid: u32,
        _hi: u32,
        left: &u32,
        right: &u32,
        _steps: &mut Steps<L>,
    ) -> Result<u32, AllocError> {
        self.call()?;
        Ok(*left + *right)
    }
}

impl Editable for Counting {
    type Row = ();

    ghost use Rattle.std.specs.Prelude.{◌+◌, ◌-◌};
    ghost use Rattle.tree_tests.specs.CountingLaws.{counting_laws, with_rows};

    ghost may_set = { λ p row new. Unit {0} };

    ghost may_push = { λ p new. Unit {0} };

    ghost has_row = { λ p row old. Unit {0} };

    ghost after_set = { λ p row new. p };

    ghost after_push = { λ p new. with_rows p (p.rows + 1) };

    ghost after_pop = { λ p. with_rows p (p.rows - 1) };

    ghost laws = { counting_laws };

    fn set(&mut self, _row: u32, _new: ()) {}

    fn push(&mut self, _alloc: Global, _new: ()) -> Result<(), ()> {
        self.rows += 1;
        Ok(())
    }

    fn pop(&mut self) -> bool {
        if self.rows == 0 {
            return false;
        }
        self.rows -= 1;
        true
    }
}
