//! The words of the command line, and the command that they ask for.
//! specs/Words.antt says which words are a command, and specs/Commands.antt what each one takes.
//! src/commands.rt builds them for the crate `clap`, src/reading.rt reads the words by them, and
//! src/words.rt chooses by the first word.
#![tactic(auto)]

mod commands;
mod law;
mod reading;
mod words;

pub use law::word_limits;
pub use words::{
    Command, DRILL_LIMIT, LEAF, LEAF_LIMIT, SEED_LIMIT, WORKER_LIMIT, WORKERS, WordsFault,
    read_words,
};
