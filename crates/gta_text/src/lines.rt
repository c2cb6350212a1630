//! Lines of a text. Where a line ends is in specs/Lines.antt, and the lines of tokens before the
//! line `rows` are in specs/Text.antt.
ghost use Rattle.std.specs.Prelude.{◌≡◌, ◌+◌, ◌<◌, ◌≤◌, ◌++◌, length, map, min};
ghost use Rattle.std.specs.Prelude.{IfOk, IfSome, OnOk};
ghost use Rattle.std.specs.List.{prefix_len};
ghost use Rattle.std.specs.Str.{bytes_eq};
ghost use Rattle.outcome_kit.specs.Outcome.{Tells};
ghost use Rattle.gta_text.specs.Lines.{is_inside};
ghost use Rattle.gta_text.specs.Text.{without_last, content, is_plain, first_bad, is_rows};
ghost use Rattle.gta_text.specs.Text.{first_tokens, mark_length, read_lines, line_view, line_if};
ghost use Rattle.gta_text.specs.Text.{lines_view};
ghost use Rattle.gta_text.specs.Text.{fault_in, AreHeld};

use crate::fault::TextFault;
use crate::token::{Token, TokenKind};
use crate::tokens::tokens_of;
use std::alloc::{AllocError, Global};

/// How many bytes an input may have.
pub const INPUT_BOUND: usize = 67_108_864;

/// A line that has tokens. Lines are numbered from 1, and empty ones count.
#[derive(Debug, Drop)]
pub struct Line {
    pub number: u32,
    pub tokens: Vec<Token>,
}

/// The lines that have tokens before the line `rows`, and where the bytes after that line begin;
/// `None` where there is no such line.
#[derive(Debug, Drop)]
pub struct Lines {
    pub lines: Vec<Line>,
    pub rows_at: Option<u32>,
}

/// The lines of a text, up to the line whose only token is the word `rows`. A mark EF BB BF at the
/// beginning, a comment from `#` on, and a CR at a line's end are passed over.
/// `Byte` names the first byte before that line that is no tab, LF, CR at a line's end, or 32 to
/// 126.
pub fn lines_of(alloc: Global, bytes: &[u8]) -> Result<Lines, TextFault>
    requires { length bytes.now ≤ INPUT_BOUND }
    ensures tells { Tells fault_in lines_view (read_lines bytes.now) result }
    // Tokens are slices of the text, in order, and the lines' numbers ascend.
    ensures held { IfOk result (λ lines. AreHeld bytes.now 1 (lines_view lines).lines) }
{
    read_lines(alloc, bytes)
}

/// The tokens of the first line that has some; none where no line has. Bytes that may not stand in a specification
/// are not looked for. Refuses only for want of memory.
pub fn first_tokens(alloc: Global, bytes: &[u8]) -> Result<Vec<Token>, AllocError>
    requires { length bytes.now ≤ INPUT_BOUND }
    ensures { IfOk result (λ tokens. tokens.items ≡ first_tokens bytes.now) }
{
    let mark = mark_length(bytes);
    let mut place = mark as u32;
    let mut rest = bytes.split_at(mark).1;
    while !rest.is_empty() {
        let (line, after) = rest.split_at(line_length(rest));
        let tokens = tokens_of(alloc, content(line), place)?;
        if !tokens.is_empty() {
            return Ok(tokens);
        }
        place += line.len() as u32;
        rest = after;
    }
    Ok(Vec::new(alloc))
}

fn read_lines(alloc: Global, bytes: &[u8]) -> Result<Lines, TextFault>
    requires { length bytes.now ≤ INPUT_BOUND }
    ensures { Tells fault_in lines_view (read_lines bytes.now) result }
{
    let mark = mark_length(bytes);
    let mut lines = Vec::new(alloc);
    let mut number = 1;
    let mut place = mark as u32;
    let mut rest = bytes.split_at(mark).1;
    while !rest.is_empty() {
        let (line, after) = rest.split_at(line_length(rest));
        let content = content(line);
        let tokens = tokens_of(alloc, content, place)?;
        let next = place + line.len() as u32;
        if is_rows(bytes, &tokens) {
            return Ok(Lines {
                lines,
                rows_at: Some(next),
            });
        }
        if let Some(at) = first_bad(content) {
            return Err(TextFault::Byte {
                line: number,
                place: at as u32 + 1,
            });
        }
        add_line(&mut lines, number, tokens)?;
        number += 1;
        place = next;
        rest = after;
    }
    Ok(Lines {
        lines,
        rows_at: None,
    })
}

/// Adds the line, where it has tokens.
fn add_line(lines: &mut Vec<Line>, number: u32, tokens: Vec<Token>) -> Result<(), AllocError>
    ensures { OnOk result (map line_view lines.new.items ≡ map line_view lines.old.items
        ++ line_if number tokens.items) }
{
    if !tokens.is_empty() {
        lines.push(Line { number, tokens })?;
    }
    Ok(())
}

/// How many bytes the first line has, with its LF.
fn line_length(bytes: &[u8]) -> usize
    ensures { result ≡ min (prefix_len is_inside bytes.now + 1) (length bytes.now) }
{
    let inside = length_inside(bytes);
    if inside < bytes.len() {
        inside + 1
    } else {
        inside
    }
}

fn content(line: &[u8]) -> &[u8]
    ensures content { result.now ≡ content line.now }
    ensures within { length result.now ≤ length line.now }
{
    without_last(without_last(line, b'\n'), b'\r')
}

fn without_last(bytes: &[u8], last: u8) -> &[u8]
    ensures shorter { result.now ≡ without_last last bytes.now }
    ensures within { length result.now ≤ length bytes.now }
{
    match bytes {
        [front @ .., byte] if *byte == last => front,
        _ => bytes,
    }
}

fn first_bad(bytes: &[u8]) -> Option<usize>
    ensures first { result ≡ first_bad bytes.now }
    ensures within { IfSome result (λ at. at < length bytes.now) }
{
    bytes.iter().position(|byte| !is_plain(*byte))
}

fn is_plain(byte: u8) -> bool
    ensures { result ≡ is_plain byte }
{
    byte == b'\t' || b' ' <= byte && byte <= b'~'
}

fn is_rows(source: &[u8], tokens: &[Token]) -> bool
    ensures { result ≡ is_rows source.now tokens.now }
{
    match tokens {
        [token] => token.kind == TokenKind::Word && token.text(source) == b"rows".as_slice(),
        _ => false,
    }
}

/// How many bytes the mark EF BB BF takes, where the bytes begin with it.
fn mark_length(bytes: &[u8]) -> usize
    ensures mark { result ≡ mark_length bytes.now }
    ensures within { result ≤ length bytes.now }
{
    match bytes {
        [0xef, 0xbb, 0xbf, ..] => 3,
        _ => 0,
    }
}

/// How many bytes stand before the first LF, or before the end.
fn length_inside(bytes: &[u8]) -> usize
    ensures inside { result ≡ prefix_len is_inside bytes.now }
    ensures within { result ≤ length bytes.now }
{
    bytes.iter().take_while(|byte| **byte != b'\n').count()
}
