//! Texts, and what is wanted of them.

use crate::{grammar, lines, nests};
use ast::Rule;
use std::alloc::{AllocError, Global};
use std::process::Abort;
use std::test::Fail;

/// A text by its parts, each of which stands in it so many times.
type Text = &'static [(&'static [u8], u32)];

fn add_times(text: &mut Vec<u8>, part: &[u8], times: u32) -> Result<(), AllocError> {
    for _ in 0..times {
        text.extend_from_slice(part)?;
    }
    Ok(())
}

fn add_parts(text: &mut Vec<u8>, parts: Text) -> Result<(), AllocError> {
    for (part, times) in parts {
        add_times(text, part, *times)?;
    }
    Ok(())
}

/// What is wanted of a text.
#[derive(Clone, Copy)]
enum Wanted {
    /// Of its statements.
    Lines(lines::Wanted),
    /// Of its blocks.
    Blocks(nests::Wanted),
    /// Of the expression that it is.
    Expression(grammar::Wanted),
}

/// Whether this comes of a text.
fn comes(alloc: Global, text: &[u8], wanted: Wanted) -> bool {
    match wanted {
        Wanted::Lines(wanted) => lines::comes(alloc, text, wanted),
        Wanted::Blocks(wanted) => nests::comes(alloc, text, wanted),
        Wanted::Expression(wanted) => grammar::comes(alloc, text, wanted),
    }
}

/// A text, and what is wanted of it.
type Row = (Text, Wanted);

fn is_right(alloc: Global, (parts, wanted): Row) -> Result<bool, AllocError> {
    let mut text = Vec::new(alloc);
    add_parts(&mut text, parts)?;
    Ok(comes(alloc, &text, wanted))
}

/// What comes of each text is wanted of it.
fn are_right(rt: &(impl Abort + AllocGlobal), rows: &[Row]) -> Result<(), Fail> {
    for (place, row) in rows.iter().enumerate() {
        assert!(*rt; is_right(rt.alloc(), *row)?, "row {place}, from 0");
    }
    Ok(())
}

// ---- statements

/// A statement of an initial line and 19 continuation lines, each of these with a comment before
/// it.
const LONG_TEXT: &[u8] = b"      PRINT *,1
C
     1+1
C
     1+1
C
     1+1
C
     1+1
C
     1+1
C
     1+1
C
     1+1
C
     1+1
C
     1+1
C
     1+1
C
     1+1
C
     1+1
C
     1+1
C
     1+1
C
     1+1
C
     1+1
C
     1+1
C
     1+1
C
     1+1
";

/// The lines of [`LONG_TEXT`].
const LONG: &[&[u8]] = &[
    b"PRINT *,1",
    b"+1",
    b"+1",
    b"+1",
    b"+1",
    b"+1",
    b"+1",
    b"+1",
    b"+1",
    b"+1",
    b"+1",
    b"+1",
    b"+1",
    b"+1",
    b"+1",
    b"+1",
    b"+1",
    b"+1",
    b"+1",
    b"+1",
];

/// Texts and their statements.
static ACCEPTED: [Row; 13] = [
    // Bytes from column 73 on and in comments may be any; a 0 in column 6 begins a statement.
    (
        &[(
            b"      PRINT *,1                                                         \xff\x7f\t+5\nC\x00\xff\x7f\t\n     0PRINT *,2\n      END\n* after the end\n   \n",
            1,
        )],
        Wanted::Lines(lines::Wanted::Statements(&[
            (None, 1, &[b"PRINT *,1"]),
            (None, 3, &[b"PRINT *,2"]),
            (None, 4, &[b"END"]),
        ])),
    ),
    // The last line has no line end.
    (
        &[(b"      PRINT *,1\n      END", 1)],
        Wanted::Lines(lines::Wanted::Statements(&[
            (None, 1, &[b"PRINT *,1"]),
            (None, 2, &[b"END"]),
        ])),
    ),
    // Blanks and leading zeros of a label mean nothing, nor do blanks and case in END.
    (
        &[(b"   10\n1 0 2 T=1\n00007 E n D", 1)],
        Wanted::Lines(lines::Wanted::Statements(&[
            (Some(10), 1, &[b""]),
            (Some(102), 2, &[b"T=1"]),
            (Some(7), 3, &[b"E n D"]),
        ])),
    ),
    // 99999, a statement to column 72, and the columns behind it
    (
        &[(
            b"99999 K=12345678901234567890123456789012345678901234567890123456789012345678\n      END",
            1,
        )],
        Wanted::Lines(lines::Wanted::Statements(&[
            (
                Some(99999),
                1,
                &[b"K=1234567890123456789012345678901234567890123456789012345678901234"],
            ),
            (None, 2, &[b"END"]),
        ])),
    ),
    // One CR before an LF is left out; 72 blanks are a comment, whatever stands behind them.
    (
        &[(
            b"c note\r\n      print *,1+\r\n* note\r\n     &2*3\r\n                                                                        \xffX\n      end\r\n\r\n\n",
            1,
        )],
        Wanted::Lines(lines::Wanted::Statements(&[
            (None, 2, &[b"print *,1+", b"2*3"]),
            (None, 6, &[b"end"]),
        ])),
    ),
    // A name that begins with END
    (
        &[(b"      END=2\n      END\n", 1)],
        Wanted::Lines(lines::Wanted::Statements(&[(None, 1, &[b"END=2"]), (None, 2, &[b"END"])])),
    ),
    // Comments between continuation lines; any mark but blank and 0 in column 6
    (
        &[(
            b"   10 PRINT *,1\nC note\n     1,2\n\n     C,3\n     0K=1\n      END\n",
            1,
        )],
        Wanted::Lines(lines::Wanted::Statements(&[
            (Some(10), 1, &[b"PRINT *,1", b",2", b",3"]),
            (None, 6, &[b"K=1"]),
            (None, 7, &[b"END"]),
        ])),
    ),
    // The initial line has a label alone. Columns 7 to 72 of a continuation line
    (
        &[(
            b"    5\n     1K=\n     212345678901234567890123456789012345678901234567890123456789012345678\xff\n     3\n      END",
            1,
        )],
        Wanted::Lines(lines::Wanted::Statements(&[
            (
                Some(5),
                1,
                &[
                    b"",
                    b"K=",
                    b"123456789012345678901234567890123456789012345678901234567890123456",
                    b"",
                ],
            ),
            (None, 5, &[b"END"]),
        ])),
    ),
    // END over two lines, and on a continuation line alone, doesn't end the unit.
    (
        &[(b"      E\n     1ND\n      K=\n     1END\n      END\n", 1)],
        Wanted::Lines(lines::Wanted::Statements(&[
            (None, 1, &[b"E", b"ND"]),
            (None, 3, &[b"K=", b"END"]),
            (None, 5, &[b"END"]),
        ])),
    ),
    // A character constant goes on, with the blanks of its first line.
    (
        &[(b"      PRINT *,'A\n     1B'\n      END\n", 1)],
        Wanted::Lines(lines::Wanted::Statements(&[
            (None, 1, &[b"PRINT *,'A", b"B'"]),
            (None, 3, &[b"END"]),
        ])),
    ),
    (
        &[
            (LONG_TEXT, 2),
            (b"      END", 1),
            (b" ", 1_000),
            (b"+1\n", 1),
        ],
        Wanted::Lines(lines::Wanted::Statements(&[
            (None, 1, LONG),
            (None, 40, LONG),
            (None, 79, &[b"END"]),
        ])),
    ),
    // The greatest number of lines
    (
        &[(b"      END\n", 1), (b"C\n", 65_534)],
        Wanted::Lines(lines::Wanted::Statements(&[(None, 1, &[b"END"])])),
    ),
    // The greatest number of continuation lines, as often as there is room
    (
        &[(LONG_TEXT, 1_680), (b"      END\n", 1)],
        Wanted::Lines(lines::Wanted::Longest(1_680)),
    ),
];

#[test]
fn statements_of_texts(rt: HostRuntime) -> Result<(), Fail> {
    are_right(&rt, &ACCEPTED)
}

/// Texts, each with the rule and the line of its refusal.
static REFUSED: [Row; 24] = [
    (
        &[(b"", 1)],
        Wanted::Lines(lines::Wanted::Refused(Rule::NoEnd, 0)),
    ),
    (
        &[(b"\n", 1)],
        Wanted::Lines(lines::Wanted::Refused(Rule::NoEnd, 1)),
    ),
    (
        &[(b"      K=1\nC", 1)],
        Wanted::Lines(lines::Wanted::Refused(Rule::NoEnd, 2)),
    ),
    (
        &[(b"      E\n     1ND\n", 1)],
        Wanted::Lines(lines::Wanted::Refused(Rule::NoEnd, 2)),
    ),
    (
        &[(b"\t     END\n", 1)],
        Wanted::Lines(lines::Wanted::Refused(Rule::StrangeByte, 1)),
    ),
    (
        &[(b"  1A  K=1\n      END\n", 1)],
        Wanted::Lines(lines::Wanted::Refused(Rule::MalformedLabel, 1)),
    ),
    (
        &[(b"00000 K=1\n      END\n", 1)],
        Wanted::Lines(lines::Wanted::Refused(Rule::MalformedLabel, 1)),
    ),
    (
        &[(b"      END\n      PRINT *\n", 1)],
        Wanted::Lines(lines::Wanted::Refused(Rule::LineBehindEnd, 2)),
    ),
    // A continuation line with something in columns 1 to 5, and with no initial line before it
    (
        &[(b"      K=1\n   10+2\n      END\n", 1)],
        Wanted::Lines(lines::Wanted::Refused(Rule::LabelledContinuation, 2)),
    ),
    (
        &[(b"PROGRAM X\n      END\n", 1)],
        Wanted::Lines(lines::Wanted::Refused(Rule::LabelledContinuation, 1)),
    ),
    (
        &[(b"     1PRINT *\n", 1)],
        Wanted::Lines(lines::Wanted::Refused(Rule::LooseContinuation, 1)),
    ),
    (
        &[(b"C\n\n     1PRINT *\n      K=1\n", 1)],
        Wanted::Lines(lines::Wanted::Refused(Rule::LooseContinuation, 3)),
    ),
    // A byte that is none of the profile counts before both.
    (
        &[(b"PROGRAM\x7f\n", 1)],
        Wanted::Lines(lines::Wanted::Refused(Rule::StrangeByte, 1)),
    ),
    (
        &[(b"     1X\x7f\n", 1)],
        Wanted::Lines(lines::Wanted::Refused(Rule::StrangeByte, 1)),
    ),
    // After END a continuation line is a line, whatever stands in it.
    (
        &[(b"      END\n     1X\n", 1)],
        Wanted::Lines(lines::Wanted::Refused(Rule::LineBehindEnd, 2)),
    ),
    (
        &[(b"      END\nC\nPROGRAM\n", 1)],
        Wanted::Lines(lines::Wanted::Refused(Rule::LineBehindEnd, 3)),
    ),
    (
        &[(b"      END\n      \t\n", 1)],
        Wanted::Lines(lines::Wanted::Refused(Rule::LineBehindEnd, 2)),
    ),
    // A CR that no LF follows, and one of two before an LF
    (
        &[(b"      END\r", 1)],
        Wanted::Lines(lines::Wanted::Refused(Rule::StrangeByte, 1)),
    ),
    (
        &[(b"      END\r\r\n", 1)],
        Wanted::Lines(lines::Wanted::Refused(Rule::StrangeByte, 1)),
    ),
    // A byte of column 72, and a label that is none beside it
    (
        &[(
            b"0                                                                      \x1f\n      END",
            1,
        )],
        Wanted::Lines(lines::Wanted::Refused(Rule::StrangeByte, 1)),
    ),
    // The first line that breaks a rule decides.
    (
        &[(b"      K=1\n1+    K=2\n\x80\n", 1)],
        Wanted::Lines(lines::Wanted::Refused(Rule::MalformedLabel, 2)),
    ),
    (
        &[(b"      K=1\n     1+2\n A   1+3\n      \x80\n", 1)],
        Wanted::Lines(lines::Wanted::Refused(Rule::LabelledContinuation, 3)),
    ),
    // One continuation line too many, and one line too many
    (
        &[(LONG_TEXT, 2), (b"*\n     1+1\n      END\n", 1)],
        Wanted::Lines(lines::Wanted::Refused(Rule::ManyContinuations, 80)),
    ),
    (
        &[(b"      END\n", 1), (b"C\n", 65_535)],
        Wanted::Lines(lines::Wanted::Refused(Rule::ManyLines, 65_536)),
    ),
];

#[test]
fn refused_texts(rt: HostRuntime) -> Result<(), Fail> {
    are_right(&rt, &REFUSED)
}

// ---- expressions and blocks

static OTHERS: [Row; 16] = [
    // the greatest depth of parentheses, and one beyond it
    (
        &[(b"(", 127), (b"7", 1), (b")", 127)],
        Wanted::Expression(grammar::Wanted::Enclosed(127)),
    ),
    (
        &[(b"(", 128), (b"7", 1), (b")", 128)],
        Wanted::Expression(grammar::Wanted::Refused(Rule::Deep)),
    ),
    (
        &[(b"MAX(1", 1), (b",1", 999), (b")", 1)],
        Wanted::Expression(grammar::Wanted::List(1_000)),
    ),
    (
        &[(b"1.5", 1)],
        Wanted::Expression(grammar::Wanted::Refused(Rule::RealConstant)),
    ),
    (
        &[(b"9223372036854775808", 1)],
        Wanted::Expression(grammar::Wanted::Refused(Rule::LargeConstant)),
    ),
    (
        &[(b"ABCDEFG", 1)],
        Wanted::Expression(grammar::Wanted::Refused(Rule::LongName)),
    ),
    (
        &[(b"", 1)],
        Wanted::Expression(grammar::Wanted::Refused(Rule::Malformed)),
    ),
    (
        &[(b"1+", 1)],
        Wanted::Expression(grammar::Wanted::Refused(Rule::Malformed)),
    ),
    (
        &[(b"I.LT.J.LT.K", 1)],
        Wanted::Expression(grammar::Wanted::Refused(Rule::Malformed)),
    ),
    (
        &[
            (b"      IF (I.EQ.1) THEN\n      END IF\n", 600),
            (b"      END\n", 1),
        ],
        Wanted::Blocks(nests::Wanted::InTurn(600)),
    ),
    (
        &[(b"      K=1\n      INTEGER L\n      END\n", 1)],
        Wanted::Blocks(nests::Wanted::Refused(Rule::OutOfOrder, 2)),
    ),
    (
        &[(b"      DO 10 I=1,2\n      END\n", 1)],
        Wanted::Blocks(nests::Wanted::Refused(Rule::OpenLoop, 2)),
    ),
    (
        &[(b"      DO 10 I=1,2\n   10 STOP\n      END\n", 1)],
        Wanted::Blocks(nests::Wanted::Refused(Rule::WrongTerminal, 2)),
    ),
    (
        &[(b"      K=1\n      ELSE\n      END\n", 1)],
        Wanted::Blocks(nests::Wanted::Refused(Rule::CrossedBlocks, 2)),
    ),
    (
        &[(b"      IF (I.EQ.1) THEN\n      END\n", 1)],
        Wanted::Blocks(nests::Wanted::Refused(Rule::CrossedBlocks, 2)),
    ),
    (
        &[(b"   10 K=1\n   10 K=2\n      END\n", 1)],
        Wanted::Blocks(nests::Wanted::Refused(Rule::RepeatedLabel, 2)),
    ),
];

#[test]
fn expressions_and_blocks_of_texts(rt: HostRuntime) -> Result<(), Fail> {
    are_right(&rt, &OTHERS)
}
