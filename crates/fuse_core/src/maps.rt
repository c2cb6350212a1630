//! Maps as what they show: the sums over lists of candidates. A wiring is carried out over these calls alone.
//! The bound of the maps crosses no thread: an impl's method can't call a function whose bound has an associated type
//! that does.

ghost use Rattle.std.specs.Prelude.{◌≡◌, ℕ, ◌+◌, ◌*◌, ◌<◌, ◌≤◌, ◌++◌, List, [], ◌∷◌, map, IfOk};
ghost use Rattle.shape_gen.specs.declared.mark.Mark.{Mark};
ghost use Rattle.shape_gen.specs.Candidates.{mark};
ghost use Rattle.fuse_core.specs.Wirings.{WiresOn, wires_on, joints};

use crate::wiring::Wires;
use std::alloc::{AllocError, Global};
use std::sync::ledger::Ledger;
use step_count::Steps;

pub(crate) trait Maps: Drop {
    type Map: Drop;

    ghost rows: { Self → ℕ };

    ghost labels: { Self → ℕ };

    ghost size: { Self → ℕ };

    ghost fits: { Self → Self.Map → Type 0 };

    ghost shows: { Self → List (List Mark) → Self.Map → Type 0 };

    ghost follows: { Self → ℕ → ℕ → Self.Map → Type 0 };

    ghost crosses: { Self → Self.Map → Self.Map → Type 0 };

    ghost components: { Self → List WiresOn };

    ghost is_lawful: { Self → Type 0 };

    /// How the components come about.
    fn components(&self, alloc: Global) -> Result<Vec<Wires>, AllocError>
        ensures made { IfOk result (λ made. map wires_on made.items ≡ components self.now) }
        ensures is_lawful { is_lawful self.now };

    /// The map of no list.
    fn nothing(&self, alloc: Global) -> Result<Self::Map, AllocError>
        ensures fits { IfOk result (fits self.now) }
        ensures shows { IfOk result (shows self.now []) };

    /// The map of the empty list.
    fn empty(&self, alloc: Global) -> Result<Self::Map, AllocError>
        ensures fits { IfOk result (fits self.now) }
        ensures shows { IfOk result (shows self.now ([] ∷ [])) };

    /// The map of the one list with this mark.
    fn marked(&self, alloc: Global, row: u32, label: u32) -> Result<Self::Map, AllocError>
        requires row_in_range { row < rows self.now }
        requires label_in_range { label < labels self.now }
        ensures fits { IfOk result (fits self.now) }
        ensures shows { IfOk result (shows self.now ((mark row label ∷ []) ∷ [])) };

    /// The map of the same lists.
    fn same(&self, alloc: Global, map: &Self::Map) -> Result<Self::Map, AllocError>
        requires { fits self.now map.now }
        ensures fits { IfOk result (fits self.now) }
        ensures shows { IfOk result (λ same. (lists : List (List Mark))
            → shows self.now lists map.now
            → shows self.now lists same) };

    /// The map of the lists of both.
    fn both(&self, alloc: Global, a: Self::Map, b: Self::Map) -> Result<Self::Map, AllocError>
        requires left_fits { fits self.now a }
        requires right_fits { fits self.now b }
        ensures fits { IfOk result (fits self.now) }
        ensures shows { IfOk result (λ both. (cs ds : List (List Mark))
            → shows self.now cs a
            → shows self.now ds b
            → shows self.now (cs ++ ds) both) };

    /// The map of the mark before each list.
    fn before<L: Ledger>(
        &self,
        alloc: Global,
        row: u32,
        label: u32,
        later: &Self::Map,
        steps: &mut Steps<L>,
    ) -> Result<Self::Map, AllocError>
        requires row_in_range { row < rows self.now }
        requires label_in_range { label < labels self.now }
        requires later_fits { fits self.now later.now }
        requires follows { follows self.now row label later.now }
        ensures fits { IfOk result (fits self.now) }
        ensures shows { IfOk result (λ before. (ds : List (List Mark))
            → shows self.now ds later.now
            → shows self.now (map (λ d. mark row label ∷ d) ds) before) }
        ensures cost { steps.new ≤ steps.old + size self.now };

    /// The map of the lists of the first, and of the mark before each list of the second.
    fn with_before<L: Ledger>(
        &self,
        alloc: Global,
        into: Self::Map,
        row: u32,
        label: u32,
        later: &Self::Map,
        steps: &mut Steps<L>,
    ) -> Result<Self::Map, AllocError>
        requires into_fits { fits self.now into }
        requires row_in_range { row < rows self.now }
        requires label_in_range { label < labels self.now }
        requires later_fits { fits self.now later.now }
        requires follows { follows self.now row label later.now }
        ensures fits { IfOk result (fits self.now) }
        ensures shows { IfOk result (λ sum. (cs ds : List (List Mark))
            → shows self.now cs into
            → shows self.now ds later.now
            → shows self.now (cs ++ map (λ d. mark row label ∷ d) ds) sum) }
        ensures cost { steps.new ≤ steps.old + size self.now };

    /// The map of each list of the first with each of the second behind it.
    fn across<L: Ledger>(
        &self,
        alloc: Global,
        a: &Self::Map,
        b: &Self::Map,
        steps: &mut Steps<L>,
    ) -> Result<Self::Map, AllocError>
        requires left_fits { fits self.now a.now }
        requires right_fits { fits self.now b.now }
        requires crosses { crosses self.now a.now b.now }
        ensures fits { IfOk result (fits self.now) }
        ensures shows { IfOk result (λ across. (cs ds : List (List Mark))
            → shows self.now cs a.now
            → shows self.now ds b.now
            → shows self.now (joints cs ds) across) }
        ensures cost { steps.new ≤ steps.old + size self.now * size self.now };
}
