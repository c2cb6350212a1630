//! Which words are names. The reserved words are in specs/Names.antt.
ghost use Rattle.std.specs.Prelude.{◌≡◌};
ghost use Rattle.std.specs.List.{list_all, list_any};
ghost use Rattle.std.specs.Str.{bytes_eq};
ghost use Rattle.gta_text.specs.Names.{is_letter, is_word_byte, is_word, is_reserved, is_name_text};

use crate::numbers::is_digit;

/// Whether the bytes are a name: a word that is not reserved. Takes no memory.
pub fn is_name(bytes: &[u8]) -> bool
    ensures { result ≡ is_name_text bytes.now }
{
    is_word(bytes) && !is_reserved(bytes)
}

pub(crate) fn is_letter(byte: u8) -> bool
    ensures { result ≡ is_letter byte }
{
    b'A' <= byte && byte <= b'Z' || b'a' <= byte && byte <= b'z' || byte == b'_'
}

pub(crate) fn is_word_byte(byte: u8) -> bool
    ensures { result ≡ is_word_byte byte }
{
    is_letter(byte) || is_digit(byte)
}

fn is_word(bytes: &[u8]) -> bool
    ensures { result ≡ is_word bytes.now }
{
    match bytes {
        [] => false,
        [first, rest @ ..] => is_letter(*first) && all_word_bytes(rest),
    }
}

fn all_word_bytes(bytes: &[u8]) -> bool
    ensures { result ≡ list_all is_word_byte bytes.now }
{
    bytes.iter().all(|byte| is_word_byte(*byte))
}

#[tactic(auto, unfolding(crate::specs::Names::is_reserved))]
fn is_reserved(bytes: &[u8]) -> bool
    ensures { result ≡ is_reserved bytes.now }
{
    let words: [&[u8]; 31] = [
        b"gta",
        b"columns",
        b"labels",
        b"measure",
        b"table",
        b"times",
        b"generate",
        b"test",
        b"aggregate",
        b"rows",
        b"sum",
        b"length",
        b"fold",
        b"by",
        b"accept",
        b"mod",
        b"if",
        b"and",
        b"label",
        b"unit",
        b"elements",
        b"best",
        b"max",
        b"min",
        b"count",
        b"any",
        b"sublists",
        b"segments",
        b"prefixes",
        b"suffixes",
        b"assign",
    ];
    is_among(bytes, &words)
}

fn is_among(bytes: &[u8], words: &[&[u8]]) -> bool
    ensures { result ≡ list_any (λ word. bytes_eq bytes.now word.now) words.now }
{
    words.iter().any(|word| bytes == *word)
}
