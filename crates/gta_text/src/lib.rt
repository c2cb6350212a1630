//! Texts in bytes: names, numbers, tokens and lines.
//! A name is in src/name.rt, numbers are in src/numbers.rt, which words are names in src/words.rt,
//! tokens in src/tokens.rt, and lines in src/lines.rt. src/law.rt has the bounds as numbers.
#![tactic(auto)]

mod fault;
mod law;
mod lines;
mod name;
mod numbers;
mod token;
mod tokens;
mod words;

pub use fault::TextFault;
pub use law::text_limits;
pub use lines::{INPUT_BOUND, Line, Lines, first_tokens, lines_of};
pub use name::Name;
pub use numbers::{NUMBER_BOUND, digits_value, field_value};
pub use token::{Token, TokenKind};
pub use words::is_name;
