//! Reading one symbol: each function gives what the definition of its name in specs/Rules.antt
//! gives.
ghost use Rattle.std.specs.Prelude.{◌≡◌, ◌+◌, ◌≤◌, option_map, is_some, unwrap_or, IfSome, IfOk};
ghost use Rattle.gta_text.specs.Numbers.{digits_number};
ghost use Rattle.gta_spec.specs.Symbols.{unquoted};
ghost use Rattle.gta_syntax.specs.Sources.{symbols_in};
ghost use Rattle.gta_syntax.specs.Rules.{Gives, word_at, later_at, sign_at, digits_at, text_at, name_at};
ghost use Rattle.gta_syntax.specs.Rules.{begins_name, begins_word, begins_later, begins_sign};

use crate::fault::LineFault;
use crate::source::{Source, is_later};
use gta_text::{NUMBER_BOUND, Name, Token, TokenKind, digits_value, is_name};
use std::alloc::Global;

/// What follows the word, where the tokens begin with it. Words that a later version reserves are for `later`.
#[tactic(auto, unfolding(crate::specs::Rules::word_at))]
pub(crate) fn word<'t>(source: Source<'_>, word: &[u8], tokens: &'t [Token]) -> Option<&'t [Token]>
    ensures { option_map (λ rest. symbols_in source.entry rest.now) result
        ≡ word_at word.now (symbols_in source.entry tokens.now) }
{
    let (token, rest) = tokens.split_first()?;
    let text = token.text(source.bytes);
    match token.kind {
        TokenKind::Word if text == word && !is_later(source.version, text) => Some(rest),
        _ => None,
    }
}

/// What follows the word, where the tokens begin with it, the version reserves it, and version 1 doesn't.
#[tactic(auto, unfolding(crate::specs::Rules::later_at))]
pub(crate) fn later<'t>(source: Source<'_>, word: &[u8], tokens: &'t [Token]) -> Option<&'t [Token]>
    ensures { option_map (λ rest. symbols_in source.entry rest.now) result
        ≡ later_at word.now (symbols_in source.entry tokens.now) }
{
    let (token, rest) = tokens.split_first()?;
    let text = token.text(source.bytes);
    match token.kind {
        TokenKind::Word if text == word && is_later(source.version, text) => Some(rest),
        _ => None,
    }
}

/// What follows the sign, where the tokens begin with it.
#[tactic(auto, unfolding(crate::specs::Rules::sign_at))]
pub(crate) fn sign<'t>(source: Source<'_>, sign: &[u8], tokens: &'t [Token]) -> Option<&'t [Token]>
    ensures { option_map (λ rest. symbols_in source.entry rest.now) result
        ≡ sign_at sign.now (symbols_in source.entry tokens.now) }
{
    let (token, rest) = tokens.split_first()?;
    match token.kind {
        TokenKind::Sign if token.text(source.bytes) == sign => Some(rest),
        _ => None,
    }
}

/// The number that the tokens begin with, or one past the bound, and what follows.
#[tactic(auto, unfolding(crate::specs::Rules::digits_at))]
pub(crate) fn number<'t>(source: Source<'_>, tokens: &'t [Token]) -> Option<(u64, &'t [Token])>
    ensures number { option_map (λ x. (x.0, symbols_in source.entry x.1.now)) result
        ≡ digits_at (symbols_in source.entry tokens.now) }
    ensures within { IfSome result (λ x. x.0 ≤ NUMBER_BOUND + 1) }
{
    let (token, rest) = tokens.split_first()?;
    match token.kind {
        TokenKind::Digits => Some((value_of(token.text(source.bytes)), rest)),
        _ => None,
    }
}

pub(crate) fn value_of(digits: &[u8]) -> u64
    ensures value { result ≡ unwrap_or (digits_number digits.now) (NUMBER_BOUND + 1) }
    ensures within { result ≤ NUMBER_BOUND + 1 }
{
    digits_value(digits).unwrap_or(NUMBER_BOUND + 1)
}

/// The text that the tokens begin with, without its quotes, and what follows.
#[tactic(auto, unfolding(crate::specs::Rules::text_at))]
fn text<'s, 't>(source: Source<'s>, tokens: &'t [Token]) -> Option<(&'s [u8], &'t [Token])>
    ensures { option_map (λ x. (x.0.now, symbols_in source.entry x.1.now)) result
        ≡ text_at (symbols_in source.entry tokens.now) }
{
    let (token, rest) = tokens.split_first()?;
    match token.kind {
        TokenKind::Text => Some((unquoted(token.text(source.bytes)), rest)),
        _ => None,
    }
}

fn unquoted(text: &[u8]) -> &[u8]
    ensures { result.now ≡ unquoted text.now }
{
    match text {
        [_, inside @ .., _] => inside,
        _ => &[],
    }
}

/// The name that the tokens begin with, and what follows.
#[tactic(auto, unfolding(crate::specs::Rules::name_at))]
pub(crate) fn word_of_name<'s, 't>(
    source: Source<'s>,
    tokens: &'t [Token],
) -> Option<(&'s [u8], &'t [Token])>
    ensures { option_map (λ x. (x.0.now, symbols_in source.entry x.1.now)) result
        ≡ name_at (symbols_in source.entry tokens.now) }
{
    let (token, rest) = tokens.split_first()?;
    let text = token.text(source.bytes);
    match token.kind {
        TokenKind::Word if is_name(text) && !is_later(source.version, text) => Some((text, rest)),
        _ => None,
    }
}

pub(crate) fn begins_name(source: Source<'_>, tokens: &[Token]) -> bool
    ensures { result ≡ begins_name (symbols_in source.entry tokens.now) }
{
    word_of_name(source, tokens).is_some()
}

pub(crate) fn begins_word(source: Source<'_>, expected: &[u8], tokens: &[Token]) -> bool
    ensures { result ≡ begins_word expected.now (symbols_in source.entry tokens.now) }
{
    word(source, expected, tokens).is_some()
}

pub(crate) fn begins_later(source: Source<'_>, expected: &[u8], tokens: &[Token]) -> bool
    ensures { result ≡ begins_later expected.now (symbols_in source.entry tokens.now) }
{
    later(source, expected, tokens).is_some()
}

pub(crate) fn begins_sign(source: Source<'_>, expected: &[u8], tokens: &[Token]) -> bool
    ensures { result ≡ begins_sign expected.now (symbols_in source.entry tokens.now) }
{
    sign(source, expected, tokens).is_some()
}

pub(crate) fn word_at<'t>(
    source: Source<'_>,
    expected: &[u8],
    tokens: &'t [Token],
) -> Result<&'t [Token], LineFault>
    ensures { Gives (λ rest. symbols_in source.entry rest.now) result
        (word_at expected.now (symbols_in source.entry tokens.now)) }
{
    match word(source, expected, tokens) {
        Some(rest) => Ok(rest),
        None => Err(LineFault::Grammar),
    }
}

pub(crate) fn later_at<'t>(
    source: Source<'_>,
    expected: &[u8],
    tokens: &'t [Token],
) -> Result<&'t [Token], LineFault>
    ensures { Gives (λ rest. symbols_in source.entry rest.now) result
        (later_at expected.now (symbols_in source.entry tokens.now)) }
{
    match later(source, expected, tokens) {
        Some(rest) => Ok(rest),
        None => Err(LineFault::Grammar),
    }
}

pub(crate) fn sign_at<'t>(
    source: Source<'_>,
    expected: &[u8],
    tokens: &'t [Token],
) -> Result<&'t [Token], LineFault>
    ensures { Gives (λ rest. symbols_in source.entry rest.now) result
        (sign_at expected.now (symbols_in source.entry tokens.now)) }
{
    match sign(source, expected, tokens) {
        Some(rest) => Ok(rest),
        None => Err(LineFault::Grammar),
    }
}

pub(crate) fn digits_at<'t>(
    source: Source<'_>,
    tokens: &'t [Token],
) -> Result<(u64, &'t [Token]), LineFault>
    ensures digits { Gives (λ x. (x.0, symbols_in source.entry x.1.now)) result
        (digits_at (symbols_in source.entry tokens.now)) }
    ensures within { IfOk result (λ x. x.0 ≤ NUMBER_BOUND + 1) }
{
    match number(source, tokens) {
        Some((value, rest)) => Ok((value, rest)),
        None => Err(LineFault::Grammar),
    }
}

pub(crate) fn text_at<'t>(
    alloc: Global,
    source: Source<'_>,
    tokens: &'t [Token],
) -> Result<(Name, &'t [Token]), LineFault>
    ensures { Gives (λ x. (x.0, symbols_in source.entry x.1.now)) result
        (text_at (symbols_in source.entry tokens.now)) }
{
    match text(source, tokens) {
        Some((inside, rest)) => Ok((Name::of(alloc, inside)?, rest)),
        None => Err(LineFault::Grammar),
    }
}

pub(crate) fn name_at<'t>(
    alloc: Global,
    source: Source<'_>,
    tokens: &'t [Token],
) -> Result<(Name, &'t [Token]), LineFault>
    ensures { Gives (λ x. (x.0, symbols_in source.entry x.1.now)) result
        (name_at (symbols_in source.entry tokens.now)) }
{
    match word_of_name(source, tokens) {
        Some((text, rest)) => Ok((Name::of(alloc, text)?, rest)),
        None => Err(LineFault::Grammar),
    }
}
