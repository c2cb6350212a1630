//! The tokens of a line. How bytes are cut into tokens is in specs/Tokens.antt.
ghost use Rattle.std.specs.Prelude.{◌≡◌, ◌+◌, ◌<◌, ◌≤◌, ◌^◌, length, drop, IfOk, IsTrue};
ghost use Rattle.std.specs.List.{prefix_len};
ghost use Rattle.gta_text.specs.Numbers.{is_digit};
ghost use Rattle.gta_text.specs.Names.{is_word_byte};
ghost use Rattle.gta_text.specs.Tokens.{is_blank, is_text_byte, is_sign, may_begin_sign, next_is};
ghost use Rattle.gta_text.specs.Tokens.{quoted_at, token_at, tokens_from};

use crate::numbers::is_digit;
use crate::token::{Token, TokenKind};
use crate::words::{is_letter, is_word_byte};
use std::alloc::{AllocError, Global};

/// The tokens of the line, which stands at `place` in the input. Refuses only for want of memory.
#[tactic(auto, using(crate::proofs::Skipping::at_token), unfolding(crate::specs::Tokens::tokens_from))]
pub(crate) fn tokens_of(alloc: Global, line: &[u8], place: u32) -> Result<Vec<Token>, AllocError>
    requires { place + length line.now < 2 ^ 32 }
    ensures { IfOk result (λ tokens. tokens.items ≡ tokens_from 0 place line.now) }
{
    let mut tokens = Vec::new(alloc);
    let mut at = place;
    let mut rest = line;
    while let Some((first, after)) = rest.split_first() {
        if is_blank(*first) {
            at += 1;
            rest = after;
        } else if *first == b'#' {
            return Ok(tokens);
        } else {
            let (kind, more) = token_at(*first, after);
            let end = at + 1 + more as u32;
            tokens.push(Token {
                kind,
                start: at,
                end,
            })?;
            at = end;
            rest = after.split_at(more).1;
        }
    }
    Ok(tokens)
}

/// The kind of the token whose first byte is `first`, and how many bytes after it belong to it.
#[tactic(auto, unfolding(crate::specs::Tokens::token_at))]
fn token_at(first: u8, after: &[u8]) -> (TokenKind, usize)
    ensures token { result ≡ token_at first after.now }
    ensures within { result.1 ≤ length after.now }
{
    if is_letter(first) {
        (TokenKind::Word, word_length(after))
    } else if is_digit(first) {
        (TokenKind::Digits, digits_length(after))
    } else if first == b'"' {
        quoted_at(after)
    } else if may_begin_sign(first) && next_is(b'=', after) {
        (TokenKind::Sign, 1)
    } else if is_sign(first) {
        (TokenKind::Sign, 0)
    } else {
        (TokenKind::Stray, 0)
    }
}

/// What a quote begins that these bytes follow.
fn quoted_at(after: &[u8]) -> (TokenKind, usize)
    ensures token { result ≡ quoted_at after.now }
    ensures within { result.1 ≤ length after.now }
{
    let inside = text_length(after);
    let (_, rest) = after.split_at(inside);
    if next_is(b'"', rest) {
        (TokenKind::Text, inside + 1)
    } else {
        (TokenKind::Stray, 0)
    }
}

fn word_length(bytes: &[u8]) -> usize
    ensures prefix { result ≡ prefix_len is_word_byte bytes.now }
    ensures within { result ≤ length bytes.now }
{
    bytes.iter().take_while(|byte| is_word_byte(**byte)).count()
}

fn digits_length(bytes: &[u8]) -> usize
    ensures prefix { result ≡ prefix_len is_digit bytes.now }
    ensures within { result ≤ length bytes.now }
{
    bytes.iter().take_while(|byte| is_digit(**byte)).count()
}

fn text_length(bytes: &[u8]) -> usize
    ensures prefix { result ≡ prefix_len is_text_byte bytes.now }
    ensures within { result ≤ length bytes.now }
{
    bytes.iter().take_while(|byte| is_text_byte(**byte)).count()
}

fn next_is(byte: u8, bytes: &[u8]) -> bool
    ensures next { result ≡ next_is byte bytes.now }
    ensures there { IsTrue result → 0 < length bytes.now }
{
    match bytes {
        [] => false,
        [first, ..] => *first == byte,
    }
}

fn is_blank(byte: u8) -> bool
    ensures { result ≡ is_blank byte }
{
    byte == b' ' || byte == b'\t'
}

fn is_text_byte(byte: u8) -> bool
    ensures { result ≡ is_text_byte byte }
{
    b' ' <= byte && byte <= b'~' && byte != b'"'
}

fn may_begin_sign(byte: u8) -> bool
    ensures { result ≡ may_begin_sign byte }
{
    byte == b'<' || byte == b'>'
}

fn is_sign(byte: u8) -> bool
    ensures { result ≡ is_sign byte }
{
    matches!(byte, b'=' | b'+' | b'-' | b'*' | b';' | b'(' | b')')
}
