//! A token and its text.
ghost use Rattle.std.specs.Prelude.{◌≡◌, slice_range};

/// What a token is.
#[derive(Clone, Copy, Debug, PartialEq, Eq)]
pub enum TokenKind {
    /// A letter or `_`, then letters, digits and `_`.
    Word,
    /// One or more of 0 to 9.
    Digits,
    /// Bytes 32 to 126 between two quotes.
    Text,
    /// One of `<=` `>=` `=` `+` `-` `*` `;` `(` `)`.
    Sign,
    /// Any other single byte.
    Stray,
}

/// A token, and where it stands in the whole input: from `start` to before `end`.
#[derive(Clone, Copy, Debug, PartialEq, Eq)]
pub struct Token {
    pub kind: TokenKind,
    pub start: u32,
    pub end: u32,
}

impl Token {
    /// The bytes of the token, of the input that it was read from. Takes no memory.
    pub fn text<'s>(&self, source: &'s [u8]) -> &'s [u8]
        ensures { result.now ≡ slice_range source.now self.now.start self.now.end }
    {
        let end = (self.end as usize).min(source.len());
        let start = (self.start as usize).min(end);
        source.split_at(end).0.split_at(start).1
    }
}
