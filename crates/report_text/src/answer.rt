//! Answers and their reports. The bytes are in specs/Texts.antt.
ghost use Rattle.std.specs.Prelude.{◌≡◌, [], Some, IfOk};
ghost use Rattle.std.specs.List.{All};
ghost use Rattle.std.specs.Fmt.{signed_decimal};
ghost use Rattle.report_text.specs.Texts.{report_text, best_text, totals_text, AreLabelled, IsLabelled};

use crate::candidate::{push_entry, push_ranked_entry, push_totals};
use best_k::Best;
use gta_text::Name;
use semiring_kit::Lex;
use std::alloc::{AllocError, Global};

/// A count that is this number stands for it or more.
pub const COUNT_CAP: u64 = 18446744073709551615;

/// What a job is answered by.
#[derive(Debug, Drop)]
pub enum Answer {
    /// How many candidates pass; at `COUNT_CAP` that many or more.
    Count(u64),
    /// Whether a candidate passes.
    Any(bool),
    /// The greatest or least total of the candidates that pass, or None where none passes.
    Total(Option<i64>),
    /// The best candidates that pass, the best one first.
    Best(Best<i64>),
    /// The best totals of the candidates that pass, two or three parts, as they are printed; or None where none passes.
    Totals { parts: u32, totals: Option<Lex> },
    /// The best candidates that pass by two or three totals, as these are printed, the best one first.
    RankedBest { parts: u32, best: Best<Lex> },
}

/// The report of an answer, each line with its LF. The labels are those that marks name by their number;
/// where there are none, marks are printed without one. Refuses only for want of memory.
pub fn report(alloc: Global, answer: &Answer, labels: &[Name]) -> Result<Vec<u8>, AllocError>
    requires { IsLabelled answer.now labels.now }
    ensures { IfOk result (λ text. text.items ≡ report_text answer.now labels.now) }
{
    match answer {
        Answer::Count(count) => count_text(alloc, *count),
        Answer::Any(true) => Vec::from_slice(alloc, b"answer yes\n"),
        Answer::Any(false) => Vec::from_slice(alloc, b"answer no\n"),
        Answer::Total(Some(total)) => {
            let text = format!(in alloc; "answer {total}\n")?;
            Ok(text.into_bytes())
        }
        Answer::Total(None) => Vec::from_slice(alloc, b"answer none\n"),
        Answer::Best(best) => best_text(alloc, best, labels),
        Answer::Totals {
            parts,
            totals: Some(totals),
        } => totals_line(alloc, *parts, totals),
        Answer::Totals { totals: None, .. } => Vec::from_slice(alloc, b"answer none\n"),
        Answer::RankedBest { parts, best } => ranked_text(alloc, *parts, best, labels),
    }
}

fn count_text(alloc: Global, count: u64) -> Result<Vec<u8>, AllocError>
    ensures { IfOk result (λ text. text.items ≡ report_text (Answer.Count count) []) }
{
    let more = if count == COUNT_CAP { " or more" } else { "" };
    let text = format!(in alloc; "answer {count}{more}\n")?;
    Ok(text.into_bytes())
}

fn best_text(alloc: Global, best: &Best<i64>, labels: &[Name]) -> Result<Vec<u8>, AllocError>
    requires { All (λ entry. AreLabelled labels.now entry.witness) best.now }
    ensures { IfOk result (λ text. text.items ≡ best_text signed_decimal labels.now best.now) }
{
    let entries = best.entries();
    let count = entries.len();
    let front = format!(in alloc; "answer {count}\n")?;
    let mut text = front.into_bytes();
    'entries: for (index, entry) in entries.iter().enumerate() {
        push_entry(alloc, &mut text, index + 1, entry, labels)?;
    }
    Ok(text)
}

fn totals_line(alloc: Global, parts: u32, totals: &Lex) -> Result<Vec<u8>, AllocError>
    ensures { IfOk result (λ text. text.items ≡ report_text (Answer.Totals parts (Some totals.now)) []) }
{
    let mut text = Vec::from_slice(alloc, b"answer ")?;
    push_totals(alloc, &mut text, parts, totals)?;
    text.extend_from_slice(b"\n")?;
    Ok(text)
}

fn ranked_text(
    alloc: Global,
    parts: u32,
    best: &Best<Lex>,
    labels: &[Name],
) -> Result<Vec<u8>, AllocError>
    requires { All (λ entry. AreLabelled labels.now entry.witness) best.now }
    ensures { IfOk result (λ text. text.items ≡ best_text (totals_text parts) labels.now best.now) }
{
    let entries = best.entries();
    let count = entries.len();
    let front = format!(in alloc; "answer {count}\n")?;
    let mut text = front.into_bytes();
    'entries: for (index, entry) in entries.iter().enumerate() {
        push_ranked_entry(alloc, &mut text, index + 1, parts, entry, labels)?;
    }
    Ok(text)
}
