//! Worked examples: words, and the command that they are.
use gta_words::{Command, WordsFault, read_words};
use std::alloc::Global;
use std::test::Fail;

/// What is read of the words, which stand here with blanks between them.
fn read(alloc: Global, text: &str) -> Result<Result<Command, WordsFault>, Fail> {
    let mut words = Vec::new(alloc);
    for word in text.split_whitespace() {
        words.push(String::from_str(alloc, word)?)?;
    }
    Ok(read_words(alloc, words.as_slice()))
}

#[test]
fn words_of_a_run(rt: HostRuntime) -> Result<(), Fail> {
    let cases = [
        ("run", 4, 64),
        ("run --workers 8", 8, 64),
        ("run --workers=64 --leaf=1", 64, 1),
        ("run --leaf=2", 4, 2),
        ("run --leaf 65536 --workers 1", 1, 65536),
        ("run --workers +7", 7, 64),
        ("run --leaf 007", 4, 7),
        ("run --", 4, 64),
        ("run --leaf 3 --", 4, 3),
    ];
    for (text, workers, leaf) in cases {
        let command = Command::Run { workers, leaf };
        assert_eq!(rt; read(rt.alloc(), text)?, Ok(command), "at {text}");
    }
    Ok(())
}

#[test]
fn words_of_a_drill(rt: HostRuntime) -> Result<(), Fail> {
    let cases = [
        ("drill 7 3", 7, 3, 4, 64),
        ("drill 0 1", 0, 1, 4, 64),
        ("drill 4294967295 20000", 4294967295, 20000, 4, 64),
        ("drill --leaf 1 7 -- 2000", 7, 2000, 4, 1),
        ("drill 7 --workers 2 2000 --leaf=5", 7, 2000, 2, 5),
        ("drill -- 7 3", 7, 3, 4, 64),
    ];
    for (text, seed, rows, workers, leaf) in cases {
        let command = Command::Drill {
            seed,
            rows,
            workers,
            leaf,
        };
        assert_eq!(rt; read(rt.alloc(), text)?, Ok(command), "at {text}");
    }
    Ok(())
}

#[test]
fn words_of_show_and_list(rt: HostRuntime) -> Result<(), Fail> {
    let cases = [
        ("show", Command::Show),
        ("show --", Command::Show),
        ("list", Command::List),
        ("list --", Command::List),
    ];
    for (text, command) in cases {
        assert_eq!(rt; read(rt.alloc(), text)?, Ok(command), "at {text}");
    }
    Ok(())
}

#[test]
fn words_that_are_no_command(rt: HostRuntime) -> Result<(), Fail> {
    let cases = [
        "",
        "help",
        "--help",
        "Run",
        "-- run",
        "--workers 8 run",
        "run x",
        "run -- x",
        "run -h",
        "run --help",
        "run --version",
        "run --work 3",
        "run -workers 3",
        "run --workers",
        "run --workers 0",
        "run --workers 65",
        "run --workers x",
        "run --workers= 3",
        "run --leaf 0",
        "run --leaf 65537",
        "run --leaf 1 --leaf 1",
        "run --workers 2 --leaf 1 --workers 3",
        "show x",
        "show --leaf 1",
        "list run",
        "list --workers 4",
        "drill",
        "drill 7",
        "drill 7 3 1",
        "drill -1 3",
        "drill 4294967296 1",
        "drill 7 0",
        "drill 7 20001",
        "drill 7 x",
        "drill 7 3 --rows 3",
    ];
    for text in cases {
        assert_eq!(rt;
            read(rt.alloc(), text)?,
            Err(WordsFault::Usage),
            "at {text}"
        );
    }
    Ok(())
}
