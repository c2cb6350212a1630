//! What `spec_of` is, of every list of bytes. The statements are in specs/ByGrammar.antt.
ghost use Rattle.gta_syntax.specs.ByGrammar.{GivesTexts, GivesRefusals};

/// `spec_of` gives a specification exactly where the bytes are its text by the grammar, and a refusal
/// exactly where it stands. It does nothing: the laws are its contract.
pub fn reading_is_the_grammar()
    ensures specifications { GivesTexts }
    ensures refusals { GivesRefusals }
{}
