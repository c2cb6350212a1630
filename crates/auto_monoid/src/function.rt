//! Functions on the states of an automaton, as lists of where each state goes.

ghost use Rattle.std.specs.Prelude.{◌≡◌, ℕ, ◌+◌, ◌*◌, ◌<◌, ◌≤◌, List, All, IfOk, length, slice_index_or, map};
ghost use Rattle.std.specs.List.{range_with_len};
ghost use Rattle.auto_monoid.specs.Auto.{IsAuto};
ghost use Rattle.auto_monoid.specs.AutoOf.{plain_auto};
ghost use Rattle.auto_monoid.specs.Functions as functions;
ghost use Rattle.auto_monoid.specs.Functions.{same, composition};

use crate::auto::Auto;
use std::alloc::{AllocError, Global};
use std::marker::Model;

/// A function on the states, seen as the list of where each state goes.
#[derive(Drop)]
pub(crate) struct Function {
    targets: Vec<u32>,
}

impl Model for Function {
    ghost use Rattle.std.specs.Prelude.{ℕ, List};

    ghost Value = { List ℕ };

    ghost view = { λ function. function.targets.items };
}

impl Function {
    /// Each of so many states stays.
    pub(crate) fn identity(alloc: Global, states: u32) -> Result<Function, AllocError>
        ensures { IfOk result (λ function. function ≡ range_with_len 0 states) }
    {
        let mut targets = Vec::with_capacity(alloc, states as usize)?;
        for state in 0..states {
            targets.push(state)?;
        }
        Ok(Function { targets })
    }

    /// This function, and then a letter.
    pub(crate) fn followed_by(
        &self,
        alloc: Global,
        auto: &Auto,
        letter: u32,
    ) -> Result<Function, AllocError>
        requires auto { IsAuto (plain_auto auto.now) }
        requires letter { letter < auto.now.letters }
        requires states { All (λ state. state < auto.now.states) self.now }
        ensures { IfOk result (λ function.
            function ≡ functions.followed_by (plain_auto auto.now) self.now letter) }
    {
        let mut targets = Vec::with_capacity(alloc, self.targets.len())?;
        for state in &self.targets {
            targets.push(auto.moves[(letter * auto.states + *state) as usize])?;
        }
        Ok(Function { targets })
    }

    /// This function, and then another.
    pub(crate) fn then(&self, alloc: Global, next: &Function) -> Result<Function, AllocError>
        requires states { All (λ state. state < length next.now) self.now }
        ensures { IfOk result (λ function. function ≡ composition self.now next.now) }
    {
        let mut targets = Vec::with_capacity(alloc, self.targets.len())?;
        for state in &self.targets {
            targets.push(next.targets[*state as usize])?;
        }
        Ok(Function { targets })
    }

    /// Where the state goes.
    pub(crate) fn at(&self, state: u32) -> u32
        requires { state < length self.now }
        ensures { result ≡ slice_index_or self.now state 0 }
    {
        self.targets[state as usize]
    }

    /// Whether the functions are the same.
    pub(crate) fn is_same(&self, other: &Function) -> bool
        ensures { result ≡ same self.now other.now }
    {
        self.targets == other.targets
    }
}
