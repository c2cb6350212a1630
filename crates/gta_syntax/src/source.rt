//! The bytes of a specification, and the version whose words they are read by.
ghost use Rattle.std.specs.Prelude.{◌≡◌};
ghost use Rattle.std.specs.List.{list_any};
ghost use Rattle.std.specs.Str.{bytes_eq};
ghost use Rattle.gta_spec.specs.Versions.{second_words, third_words, is_later};

#[derive(Clone, Copy)]
pub(crate) struct Source<'s> {
    pub bytes: &'s [u8],
    pub version: u8,
}

/// Whether the version reserves the word, and version 1 doesn't.
#[tactic(auto, unfolding(gta_spec::specs::Versions::is_later))]
pub(crate) fn is_later(version: u8, word: &[u8]) -> bool
    ensures { result ≡ is_later version word.now }
{
    if is_second_word(word) {
        version >= 2
    } else {
        is_third_word(word) && version >= 3
    }
}

/// Whether the word is reserved from version 2 on.
fn is_second_word(word: &[u8]) -> bool
    ensures { result ≡ list_any (bytes_eq word.now) second_words }
{
    let words: [&[u8]; 4] = [b"keep", b"or", b"not", b"then"];
    is_among(word, &words)
}

/// Whether the word is reserved from version 3 on.
fn is_third_word(word: &[u8]) -> bool
    ensures { result ≡ list_any (bytes_eq word.now) third_words }
{
    let words: [&[u8]; 16] = [
        b"automaton",
        b"states",
        b"start",
        b"letters",
        b"step",
        b"run",
        b"end",
        b"move",
        b"skip",
        b"take",
        b"semiring",
        b"zero",
        b"one",
        b"plus",
        b"mult",
        b"in",
    ];
    is_among(word, &words)
}

fn is_among(bytes: &[u8], words: &[&[u8]]) -> bool
    ensures { result ≡ list_any (λ word. bytes_eq bytes.now word.now) words.now }
{
    words.iter().any(|word| bytes == *word)
}
