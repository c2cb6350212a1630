//! Tests written as automata over the top call: version 3 of the language.

use super::{SMOOTH, assert_called, assert_runs, called};
use std::alloc::Global;
use std::test::Fail;

/// No two of a letter may follow one another.
const A: &[u8] = b"automaton A states free lp ln dead start free letters p n\n\
      step A p = lp dead lp dead\nstep A n = ln ln dead dead\n";

/// Rotations, swaps and a meeting of four states, more functions than 64.
const T: &[u8] = b"automaton T states a b c d start a letters x y z\n\
      step T x = b c d a\nstep T y = b a c d\nstep T z = a a c d\n";

/// Cycles of 3, 4 and 5 states with 4 states before them: 64 functions.
const C: &[u8] = b"automaton C states t4 t3 t2 t1 a b c d e f g h i j k l start t4 letters x\n\
      step C x = t3 t2 t1 a b c a e f g d i j k l h\n";

/// A job of version 3 over a column v, from its lines and the lines of its cells.
fn job(alloc: Global, lines: &[&[u8]], cells: &[u8]) -> Result<Vec<u8>, Fail> {
    let mut input = Vec::from_slice(alloc, b"gta 3\ncolumns v\n")?;
    for line in lines {
        input.extend_from_slice(line)?;
    }
    input.extend_from_slice(b"rows\nv\n")?;
    input.extend_from_slice(cells)?;
    Ok(input)
}

/// A job of version 3 that counts choices of no row, from its lines besides.
fn counted(alloc: Global, lines: &[&[u8]]) -> Result<Vec<u8>, Fail> {
    let mut input = Vec::from_slice(alloc, b"gta 3\ncolumns v\ngenerate sublists\n")?;
    for line in lines {
        input.extend_from_slice(line)?;
    }
    input.extend_from_slice(b"aggregate count\nrows\nv\n")?;
    Ok(input)
}

// The lines of a job over 1, -1 and 1, and its answer.
#[test]
fn answers_of_runs(rt: HostRuntime) -> Result<(), Fail> {
    let cases: [(&[&[u8]], &[u8]); 10] = [
        (
            &[
                b"generate sublists\n",
                A,
                b"test run A by p if v >= 1 ; n accept free lp ln\naggregate count\n",
            ],
            b"answer 7\n",
        ),
        (
            &[
                b"generate sublists\n",
                A,
                b"test run A by p if v >= 1 ; n accept dead\naggregate best 9 max v\n",
            ],
            b"answer 1\n1 2 1 3\n",
        ),
        // a row without a pick moves no state
        (
            &[
                b"generate sublists\n",
                A,
                b"test run A by p if v >= 1 accept lp\naggregate count\n",
            ],
            b"answer 4\n",
        ),
        // the first pick counts
        (
            &[
                b"generate prefixes\n",
                A,
                b"test run A by n ; p if v >= 1 accept ln\naggregate count\n",
            ],
            b"answer 1\n",
        ),
        // by the label alone
        (
            &[
                b"labels P N\ngenerate assign\n",
                A,
                b"test run A by p if label P ; n accept lp\naggregate count\n",
            ],
            b"answer 1\n",
        ),
        // what isn't accepted, and a name that a test has
        (
            &[
                b"generate sublists\n",
                A,
                b"test good = run A by p if v >= 1 ; n accept free lp ln\nkeep not good\naggregate count\n",
            ],
            b"answer 1\n",
        ),
        // beside a fold, a sum and a remainder
        (
            &[
                b"generate sublists\ntable S unit e elements e o\ntimes S e = e o\ntimes S o = o e\n",
                A,
                b"measure one_each = 1\ntest sum one_each <= 2\ntest length mod 2 = 0\n\
                  test fold S by o accept e\ntest run A by p if v >= 1 ; n accept free lp ln\naggregate count\n",
            ],
            b"answer 3\n",
        ),
        // two automata, one of them used twice, and a state that has the name of a letter, of a column and of a test
        (
            &[
                b"generate segments\n",
                A,
                b"automaton B states v x start x letters x A\nstep B x = v x\nstep B A = x v\n\
                  test run B by A accept v\ntest run B by x accept x\ntest run A by n accept ln\naggregate count\n",
            ],
            b"answer 3\n",
        ),
        // an automaton that no test uses
        (
            &[b"generate sublists\n", A, b"aggregate count\n"],
            b"answer 8\n",
        ),
        // 64 functions
        (
            &[
                b"generate sublists\n",
                C,
                b"test run C by x accept t3\naggregate count\n",
            ],
            b"answer 3\n",
        ),
    ];
    for (lines, answer) in cases {
        let input = job(rt.alloc(), lines, b"1\n-1\n1\n")?;
        assert_runs(&rt, rt.alloc(), &[(input.as_slice(), answer, b"")])?;
    }
    Ok(())
}

// The lines of a specification, and its first refusal.
#[test]
fn refusals_of_automata(rt: HostRuntime) -> Result<(), Fail> {
    let cases: [(&[&[u8]], &[u8]); 17] = [
        (&[T], b"refused 29: automaton T: more than 64 elements\n"),
        // a letter without a step, with two, and with one of another length
        (
            &[b"automaton B states a start a letters p n\nstep B p = a\n"],
            b"refused 29: automaton B: not total at n\n",
        ),
        (
            &[
                b"automaton B states a start a letters n p\nstep B p = a\nstep B n = a\nstep B p = a\n",
            ],
            b"refused 29: automaton B: not total at p\n",
        ),
        (
            &[b"automaton B states a start a letters n p\nstep B p = a\nstep B n = a a\n"],
            b"refused 29: automaton B: not total at n\n",
        ),
        // one that isn't total before one with too many functions, and the first of two by their lines
        (
            &[T, b"automaton B states a start a letters p\n"],
            b"refused 29: automaton B: not total at p\n",
        ),
        (
            &[b"automaton B states a start a letters p\nautomaton D states a start a letters q\n"],
            b"refused 29: automaton B: not total at p\n",
        ),
        // a table first
        (
            &[T, b"table t unit e elements e\n"],
            b"refused 28: table t: not square at e\n",
        ),
        (&[A, A], b"refused 21: line 7: name A declared twice\n"),
        (
            &[b"automaton v states a start a letters p\n"],
            b"refused 21: line 4: name v declared twice\n",
        ),
        (
            &[b"automaton B states a b a start a letters p\n"],
            b"refused 21: line 4: name a declared twice\n",
        ),
        (
            &[b"automaton B states a start a letters a p p\n"],
            b"refused 21: line 4: name p declared twice\n",
        ),
        (
            &[b"automaton B states a start b letters p\n"],
            b"refused 20: line 4: unknown name b\n",
        ),
        (
            &[b"automaton B states a start a letters p\nstep B a = p\n"],
            b"refused 20: line 5: unknown name a\n",
        ),
        (
            &[b"automaton B states a start a letters p\nstep B p = p\n"],
            b"refused 20: line 5: unknown name p\n",
        ),
        (
            &[b"step v p = a\n"],
            b"refused 20: line 4: unknown name v\n",
        ),
        (
            &[A, b"test run A by free accept free\n"],
            b"refused 20: line 7: unknown name free\n",
        ),
        (
            &[A, b"test run A by p accept p\n"],
            b"refused 20: line 7: unknown name p\n",
        ),
    ];
    for (lines, refusal) in cases {
        let input = counted(rt.alloc(), lines)?;
        for command in ["run", "list", "show"] {
            let input = (input.as_slice(), SMOOTH);
            assert_called(&rt, rt.alloc(), &[command], input, 1, (b"", refusal))?;
        }
    }
    Ok(())
}

// What is listed, and the canonical text.
#[test]
fn runs_listed_and_shown(rt: HostRuntime) -> Result<(), Fail> {
    let lines: [&[u8]; 3] = [
        b"generate sublists\n",
        A,
        b"test run  A by p if v>=1;n accept  dead\naggregate any\n",
    ];
    let input = job(rt.alloc(), &lines, b"1\n-1\n1\n")?;
    let listed = called(&rt, rt.alloc(), &["list"], input.as_slice(), SMOOTH)?;
    assert_eq!(rt; listed.out.as_slice(), b"kept 1\n1 3\n".as_slice());
    let shown = called(&rt, rt.alloc(), &["show"], input.as_slice(), SMOOTH)?;
    let text: &[u8] = b"gta 3\ncolumns v\ngenerate sublists\n\
          automaton A states free lp ln dead start free letters p n\n\
          step A p = lp dead lp dead\nstep A n = ln ln dead dead\n\
          test run A by p if v >= 1 ; n accept dead\naggregate any\nrows\n";
    assert_eq!(rt; shown.out.as_slice(), text);
    Ok(())
}
