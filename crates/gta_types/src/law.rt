//! What `resolved_of` is, of every specification. The statements are in specs/ResolvedOf.antt.
ghost use Rattle.gta_types.specs.ResolvedOf.{ResolvesEach, ResolvesOnce};

/// `resolved_of` gives the specification with its names resolved wherever there is no fault, and no other is
/// that. It does nothing: the laws are its contract.
pub fn resolving_is_resolved_of()
    ensures each { ResolvesEach }
    ensures once { ResolvesOnce }
{}
