//! The transition monoid of an automaton is made, and read.

ghost use Rattle.std.specs.Prelude.{◌≡◌, ◌<◌, IfOk, IfErr, OnOk, length, true, false};
ghost use Rattle.monoid_kit.specs.TableOf.{plain_table};
ghost use Rattle.monoid_kit.specs.declared.checks.TableFault.TheVariants as table_faults;
ghost use Rattle.auto_monoid.specs.declared.auto.AutoFault.TheVariants.{TooMany, Memory};
ghost use Rattle.auto_monoid.specs.Auto.{IsAuto};
ghost use Rattle.auto_monoid.specs.AutoOf.{plain_auto};
ghost use Rattle.auto_monoid.specs.Numbering.{are_too_many};
ghost use Rattle.auto_monoid.specs.MonoidOf.{product_table, letter_element, state_after_element};
ghost use Rattle.auto_monoid.specs.TransitionOf.{machine, functions};

use crate::auto::{Auto, AutoFault};
use crate::discovery::discover;
use crate::monoid::AutoMonoid;
use crate::table::{letters_of, table_of};
use monoid_kit::{TableFault, TableMonoid, check_table};
use std::alloc::Global;

/// The transition monoid of the automaton. It takes memory for the functions, and for their table.
/// Too many is told exactly where more than 64 different functions are those of words (`too_many_law`).
pub fn transition_monoid(alloc: Global, auto: Auto) -> Result<AutoMonoid, AutoFault>
    requires auto { IsAuto (plain_auto auto) }
    ensures machine { IfOk result (λ monoid. machine monoid ≡ plain_auto auto) }
    ensures few { OnOk result (are_too_many (plain_auto auto) ≡ false) }
    ensures too_many { IfErr result (λ fault. fault ≡ TooMany → are_too_many (plain_auto auto) ≡ true) }
{
    let functions = discover(alloc, &auto)?;
    let Ok(letters) = letters_of(alloc, &auto, &functions) else {
        return Err(AutoFault::Memory);
    };
    let Ok(table) = table_of(alloc, &functions, auto.states) else {
        return Err(AutoFault::Memory);
    };
    match check_table(alloc, &table) {
        Ok(table) => Ok(AutoMonoid {
            made_of: auto,
            functions,
            letters,
            table,
        }),
        Err(fault) => Err(want_of_memory(fault)),
    }
}

// The products of functions are a monoid, so that nothing but memory can be wanting.
fn want_of_memory(fault: TableFault) -> AutoFault
    requires { fault ≡ table_faults.Memory }
    ensures { result ≡ Memory }
{
    match fault {
        TableFault::Memory => AutoFault::Memory,
        _ => unreachable!(),
    }
}

impl AutoMonoid {
    /// The automaton of which the monoid was made. It takes no memory.
    pub fn machine(&self) -> &Auto
        ensures { plain_auto result.now ≡ machine self.now }
    {
        &self.made_of
    }

    /// The monoid of the elements: the table of their products. It takes no memory.
    pub fn monoid(&self) -> &TableMonoid
        ensures { plain_table result.now ≡ product_table (functions self.now) }
    {
        &self.table
    }

    /// The element of a letter. It takes no memory.
    pub fn of_letter(&self, letter: u32) -> u32
        requires is_letter { letter < (machine self.now).letters }
        ensures element { result ≡ letter_element (machine self.now) (functions self.now) letter }
        ensures is_element { result < length (functions self.now) }
    {
        self.letters[letter as usize]
    }

    /// The state to which an element takes the start. It takes no memory.
    pub fn state_after(&self, element: u32) -> u32
        requires is_element { element < length (functions self.now) }
        ensures state { result ≡ state_after_element (machine self.now) (functions self.now) element }
        ensures is_state { result < (machine self.now).states }
    {
        self.functions[element as usize].at(self.made_of.start)
    }
}
