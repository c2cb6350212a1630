//! The reader and the printer of the language together: a text, and its canonical text, which reads and prints
//! as itself.
//! The specifications need not be checked ones. jobs.rt has whole jobs by leaves of several sizes.

use gta_canonical::show_spec;
use gta_syntax::read_spec;
use gta_text::INPUT_BOUND;
use std::alloc::Global;
use std::test::Fail;

/// The canonical text of what is read; nothing where it is refused.
fn shown(alloc: Global, bytes: &[u8]) -> Result<Vec<u8>, Fail> {
    if bytes.len() <= INPUT_BOUND {
        if let Ok(read) = read_spec(alloc, bytes) {
            return Ok(show_spec(alloc, &read.spec)?);
        }
    }
    Ok(Vec::new(alloc))
}

#[test]
fn texts_of_the_whole_grammar(rt: HostRuntime) -> Result<(), Fail> {
    let cases: [(&[u8], &[u8]); 23] = [
        (b"gta 1\nrows\n", b"gta 1\nrows\n"),
        (b"# c\n\ngta 1 # d\r\n\nrows # e\nv\n1", b"gta 1\nrows\n"),
        (
            b"gta 1\ncolumns v#c\ngenerate  sublists\nmeasure m = -  3*v+02 if v>=1;7\n\
              aggregate min m\nrows",
            b"gta 1\ncolumns v\ngenerate sublists\nmeasure m = -3*v + 2 if v >= 1 ; 7\naggregate min m\nrows\n",
        ),
        (
            b"gta 1\ncolumns weight = \"Weight, kg\" value n=\"\"\nrows",
            b"gta 1\ncolumns weight=\"Weight, kg\" value n=\"\"\nrows\n",
        ),
        (
            b"gta 1\nlabels A B _c\nrows",
            b"gta 1\nlabels A B _c\nrows\n",
        ),
        (b"gta 1\nmeasure m=v\nrows", b"gta 1\nmeasure m = v\nrows\n"),
        (
            b"gta 1\nmeasure m=-0-0+v-2*w\nrows",
            b"gta 1\nmeasure m = -0 - 0 + v - 2*w\nrows\n",
        ),
        (
            b"gta 1\nmeasure m=1 if label A and v<=-0 and w = -7;2;x if x=3\nrows",
            b"gta 1\nmeasure m = 1 if label A and v <= 0 and w = -7 ; 2 ; x if x = 3\nrows\n",
        ),
        (
            b"gta 1\ntable t unit e elements e a\nrows",
            b"gta 1\ntable t unit e elements e a\nrows\n",
        ),
        (
            b"gta 1\ntimes t a=e a\nrows",
            b"gta 1\ntimes t a = e a\nrows\n",
        ),
        (
            b"gta 1\ngenerate segments\nrows",
            b"gta 1\ngenerate segments\nrows\n",
        ),
        (
            b"gta 1\ngenerate prefixes\nrows",
            b"gta 1\ngenerate prefixes\nrows\n",
        ),
        (
            b"gta 1\ngenerate suffixes\nrows",
            b"gta 1\ngenerate suffixes\nrows\n",
        ),
        (
            b"gta 1\ngenerate assign\nrows",
            b"gta 1\ngenerate assign\nrows\n",
        ),
        (
            b"gta 1\ntest sum v<=50\nrows",
            b"gta 1\ntest sum v <= 50\nrows\n",
        ),
        (
            b"gta 1\ntest sum v mod 03=1\nrows",
            b"gta 1\ntest sum v mod 3 = 1\nrows\n",
        ),
        (
            b"gta 1\ntest length>=-1\nrows",
            b"gta 1\ntest length >= -1\nrows\n",
        ),
        (
            b"gta 1\ntest fold t by a if v=1 and label B;b accept e a\nrows",
            b"gta 1\ntest fold t by a if v = 1 and label B ; b accept e a\nrows\n",
        ),
        (
            b"gta 1\naggregate count\nrows",
            b"gta 1\naggregate count\nrows\n",
        ),
        (
            b"gta 1\naggregate any\nrows",
            b"gta 1\naggregate any\nrows\n",
        ),
        (
            b"gta 1\naggregate max m\nrows",
            b"gta 1\naggregate max m\nrows\n",
        ),
        (
            b"gta 1\naggregate best 03 min m\nrows",
            b"gta 1\naggregate best 3 min m\nrows\n",
        ),
        (
            b"gta 1\nmeasure m=4611686018427387903\nrows",
            b"gta 1\nmeasure m = 4611686018427387903\nrows\n",
        ),
    ];
    for (bytes, text) in cases {
        for source in [bytes, text] {
            let shown = shown(rt.alloc(), source)?;
            assert_eq!(rt; shown.as_slice(), text, "at {source:?}");
        }
    }
    Ok(())
}
