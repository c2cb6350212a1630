//! What walks are over adjoining rows. The statements are in specs/Splits.antt.

ghost use Rattle.walk_gen.specs.Splits.{EndsAtEnds, SplitsAnywhere};

/// Wherever rows are cut, a walk over them is one over the earlier rows and one over the later rows that meet in a
/// state; and a candidate is what a walk from the start to an end takes. It does nothing: the laws are its contract.
#[tactic(auto, using(crate::proofs::Splits::splits_anywhere, crate::proofs::Splits::ends_at_ends))]
pub fn walks_are_cut_anywhere()
    ensures splits { SplitsAnywhere }
    ensures ends { EndsAtEnds }
{}
