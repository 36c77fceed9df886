//! Loops, affine forms, relations and private scalars of sources.

use crate::asked::{Question, Row, Source, are_right, is_right_again};
use crate::looks::{Places, Shape};
use ast::Name;
use dependence::{Reason, Relation};
use std::process::Abort;
use std::test::Fail;

// The scalars of the sources.

const J: Name = Name {
    letters: [b'J', b' ', b' ', b' ', b' ', b' '],
};

const K: Name = Name {
    letters: [b'K', b' ', b' ', b' ', b' ', b' '],
};

const KT: Name = Name {
    letters: [b'K', b'T', b' ', b' ', b' ', b' '],
};

const L: Name = Name {
    letters: [b'L', b' ', b' ', b' ', b' ', b' '],
};

/// Loops in loops, and one that reads.
const NEST: &[u8] = b"      INTEGER A(10),B(3,3)
      DO 30 I=1,3
      IF (I.LT.2) K=K+1
      DO 20 J=3,1,-1
      DO 10 L=1,J
   10 B(L,J)=A(I)
   20 CONTINUE
   30 CONTINUE
      DO 40 I=5,1,MAX(-2,-3)
   40 READ *,A(I),K
      END
";

/// The loops of [`NEST`].
static NESTED: [Row<'static>; 4] = [
    (
        Source::Whole(NEST),
        1,
        Question::Shape(Shape {
            count: 4,
            line: 2,
            around: None,
            step: Some(1),
            trips: Some(3),
            assigned: &[K, J, L],
            lines: &[3, 3, 3, 4, 5, 5, 6, 6, 6, 6, 6],
        }),
    ),
    (
        Source::Whole(NEST),
        2,
        Question::Shape(Shape {
            count: 4,
            line: 4,
            around: Some(2),
            step: Some(-1),
            trips: Some(3),
            assigned: &[L],
            lines: &[5, 5, 6, 6, 6, 6, 6],
        }),
    ),
    (
        Source::Whole(NEST),
        3,
        Question::Shape(Shape {
            count: 4,
            line: 5,
            around: Some(4),
            step: Some(1),
            trips: None,
            assigned: &[],
            lines: &[6, 6, 6, 6, 6],
        }),
    ),
    (
        Source::Whole(NEST),
        4,
        Question::Shape(Shape {
            count: 4,
            line: 9,
            around: None,
            step: Some(-2),
            trips: Some(3),
            assigned: &[K],
            lines: &[10, 10, 10],
        }),
    ),
];

#[test]
fn nested_loops(rt: HostRuntime) -> Result<(), Fail> {
    are_right(&rt, &NESTED)
}

#[test]
fn want_of_memory_in_loops(rt: HostRuntime) -> Result<(), Fail> {
    for row in NESTED {
        is_right_again(&rt, row)?;
    }
    Ok(())
}

const TWO_TRIPS: &[u8] = b"I=1,2";

static FORMS: [Row<'static>; 28] = [
    // forms of the variable
    (
        Source::OfTwo(TWO_TRIPS, b"A(I)", b"J"),
        1,
        Question::Form(Some((0, 1, &[]))),
    ),
    (
        Source::OfTwo(TWO_TRIPS, b"A(2*I-3)", b"J"),
        1,
        Question::Form(Some((-3, 2, &[]))),
    ),
    (
        Source::OfTwo(TWO_TRIPS, b"A(-(I+1))", b"J"),
        1,
        Question::Form(Some((-1, -1, &[]))),
    ),
    (
        Source::OfTwo(TWO_TRIPS, b"A(+I-I)", b"J"),
        1,
        Question::Form(Some((0, 0, &[]))),
    ),
    (
        Source::OfTwo(TWO_TRIPS, b"A(N*(I-2))", b"J"),
        1,
        Question::Form(Some((-6, 3, &[]))),
    ),
    // forms of scalars
    // N is a constant; the range assigns J, and no other scalar.
    (
        Source::OfTwo(TWO_TRIPS, b"A((I+M)*N+M)", b"J"),
        1,
        Question::Form(Some((0, 3, &[4]))),
    ),
    (
        Source::OfTwo(TWO_TRIPS, b"A((I-I+2)*J)", b"J"),
        1,
        Question::Form(Some((0, 0, &[2]))),
    ),
    (
        Source::OfTwo(TWO_TRIPS, b"A(M-2*L+M)", b"J"),
        1,
        Question::Form(Some((0, 0, &[2, -2]))),
    ),
    (
        Source::OfTwo(TWO_TRIPS, b"A(M-M)", b"J"),
        1,
        Question::Form(Some((0, 0, &[]))),
    ),
    (
        Source::OfTwo(TWO_TRIPS, b"A(0*J+J)", b"J"),
        1,
        Question::Form(Some((0, 0, &[1]))),
    ),
    // no form of a scalar that varies
    (
        Source::OfTwo(TWO_TRIPS, b"A(J-J)", b"J"),
        1,
        Question::Form(None),
    ),
    (
        Source::OfTwo(TWO_TRIPS, b"A(J+J)", b"J"),
        1,
        Question::Form(None),
    ),
    (
        Source::OfTwo(TWO_TRIPS, b"A(2*J+I+J)", b"J"),
        1,
        Question::Form(None),
    ),
    // no form of other operations
    (
        Source::OfTwo(TWO_TRIPS, b"A(I*I)", b"J"),
        1,
        Question::Form(None),
    ),
    (
        Source::OfTwo(TWO_TRIPS, b"A(I*M)", b"J"),
        1,
        Question::Form(None),
    ),
    (
        Source::OfTwo(TWO_TRIPS, b"A(0*(I*I))", b"J"),
        1,
        Question::Form(None),
    ),
    (
        Source::OfTwo(TWO_TRIPS, b"A(I/1)", b"J"),
        1,
        Question::Form(None),
    ),
    (
        Source::OfTwo(TWO_TRIPS, b"A(MOD(I,2))", b"J"),
        1,
        Question::Form(None),
    ),
    (
        Source::OfTwo(TWO_TRIPS, b"A(A(I))", b"J"),
        1,
        Question::Form(None),
    ),
    // forms at the bounds of numbers
    (
        Source::OfTwo(TWO_TRIPS, b"A(9223372036854775807)", b"J"),
        1,
        Question::Form(Some((i64::MAX, 0, &[]))),
    ),
    (
        Source::OfTwo(TWO_TRIPS, b"A(9223372036854775807+1+I)", b"J"),
        1,
        Question::Form(None),
    ),
    (
        Source::OfTwo(TWO_TRIPS, b"A(9223372036854775807+I+1-1)", b"J"),
        1,
        Question::Form(None),
    ),
    (
        Source::OfTwo(TWO_TRIPS, b"A(4611686018427387904*(I+I))", b"J"),
        1,
        Question::Form(None),
    ),
    (
        Source::OfTwo(TWO_TRIPS, b"A(-9223372036854775807*M-M)", b"J"),
        1,
        Question::Form(Some((0, 0, &[i64::MIN]))),
    ),
    // forms of many scalars
    (
        Source::OfTwo(TWO_TRIPS, b"A(M1+M2+M3+M4+M5+M6+M7+M8)", b"J"),
        1,
        Question::Form(Some((0, 0, &[1, 1, 1, 1, 1, 1, 1, 1]))),
    ),
    (
        Source::OfTwo(TWO_TRIPS, b"A(M1+M2+M3+M4+M5+M6+M7+M8+M9)", b"J"),
        1,
        Question::Form(None),
    ),
    (
        Source::OfTwo(TWO_TRIPS, b"A(M1+M2+M3+M4+M5+M6+M7+M8+M9-M9)", b"J"),
        1,
        Question::Form(None),
    ),
    (
        Source::OfTwo(TWO_TRIPS, b"A(M1+M2+M3+M4+M5+M6+M7+M8+(M9-M8))", b"J"),
        1,
        Question::Form(Some((0, 0, &[1, 1, 1, 1, 1, 1, 1, 1]))),
    ),
];

#[test]
fn forms_of_subscripts(rt: HostRuntime) -> Result<(), Fail> {
    are_right(&rt, &FORMS)
}

const TEN_TRIPS: &[u8] = b"I=1,10";

/// The two elements of a range, the first one in an earlier iteration.
const IN_TURN: Places = (0, 1);

static RELATED: [Row<'static>; 17] = [
    // relations by distance and range
    (
        Source::OfTwo(TEN_TRIPS, b"A(I+M)", b"A(I+M-3)"),
        1,
        Question::Related(IN_TURN, Relation::Distance(1, 3)),
    ),
    (
        Source::OfTwo(TEN_TRIPS, b"A(I+M-3)", b"A(I+M)"),
        1,
        Question::Related(IN_TURN, Relation::Apart(1, Reason::Distance)),
    ),
    (
        Source::OfTwo(TEN_TRIPS, b"B(I,J)", b"B(I-2,J)"),
        1,
        Question::Related(IN_TURN, Relation::Distance(1, 2)),
    ),
    (
        Source::OfTwo(b"I=1,10,2", b"A(I)", b"A(I-3)"),
        1,
        Question::Related(IN_TURN, Relation::Apart(1, Reason::Distance)),
    ),
    (
        Source::OfTwo(TEN_TRIPS, b"A(I+20)", b"A(I)"),
        1,
        Question::Related(IN_TURN, Relation::Apart(1, Reason::Range)),
    ),
    (
        Source::OfTwo(TEN_TRIPS, b"A(I)", b"A(I+20)"),
        1,
        Question::Related(IN_TURN, Relation::Apart(1, Reason::Distance)),
    ),
    // relations by constant and divisor
    (
        Source::OfTwo(TEN_TRIPS, b"A(2*I)", b"A(2*I+3)"),
        1,
        Question::Related(IN_TURN, Relation::Apart(1, Reason::Divisor)),
    ),
    (
        Source::OfTwo(TEN_TRIPS, b"B(3,I)", b"B(4,I)"),
        1,
        Question::Related(IN_TURN, Relation::Apart(1, Reason::Constant)),
    ),
    (
        Source::OfTwo(TEN_TRIPS, b"A(2*J)", b"A(2*J+1)"),
        1,
        Question::Related(IN_TURN, Relation::Apart(1, Reason::Divisor)),
    ),
    (
        Source::OfTwo(TEN_TRIPS, b"A(3*M)", b"A(M+1)"),
        1,
        Question::Related(IN_TURN, Relation::Apart(1, Reason::Divisor)),
    ),
    (
        Source::OfTwo(TEN_TRIPS, b"A(2*I)", b"A(2*I+1)"),
        1,
        Question::Related(IN_TURN, Relation::Apart(1, Reason::Divisor)),
    ),
    (
        Source::OfTwo(TEN_TRIPS, b"A(2*I+1)", b"A(2*I)"),
        1,
        Question::Related(IN_TURN, Relation::Apart(1, Reason::Divisor)),
    ),
    // pairs that no test relates
    (
        Source::OfTwo(TEN_TRIPS, b"A(M)", b"A(M)"),
        1,
        Question::Related(IN_TURN, Relation::Any),
    ),
    (
        Source::OfTwo(TEN_TRIPS, b"A(J)", b"A(J)"),
        1,
        Question::Related(IN_TURN, Relation::Any),
    ),
    (
        Source::OfTwo(TEN_TRIPS, b"A(J+J)", b"A(2*J+1)"),
        1,
        Question::Related(IN_TURN, Relation::Any),
    ),
    (
        Source::OfTwo(TEN_TRIPS, b"A(I*I)", b"A(I)"),
        1,
        Question::Related(IN_TURN, Relation::Any),
    ),
    (
        Source::OfTwo(b"I=1,10,0", b"A(I)", b"A(I)"),
        1,
        Question::Related(IN_TURN, Relation::Any),
    ),
];

#[test]
fn relations_of_pairs(rt: HostRuntime) -> Result<(), Fail> {
    are_right(&rt, &RELATED)
}

/// Claims of two elements, and whether the tests that they name give them.
static CLAIMED: [Row<'static>; 17] = [
    // claims of a distance
    (
        Source::OfTwo(TEN_TRIPS, b"A(I+M)", b"A(I+M-3)"),
        1,
        Question::Judged(IN_TURN, Relation::Distance(1, 4), false),
    ),
    (
        Source::OfTwo(TEN_TRIPS, b"A(I+M)", b"A(I+M-3)"),
        1,
        Question::Judged(IN_TURN, Relation::Distance(1, 3), true),
    ),
    (
        Source::OfTwo(TEN_TRIPS, b"A(I+M)", b"A(I+M-3)"),
        1,
        Question::Judged(IN_TURN, Relation::Distance(0, 3), false),
    ),
    (
        Source::OfTwo(TEN_TRIPS, b"A(I+M)", b"A(I+M-3)"),
        1,
        Question::Judged(IN_TURN, Relation::Distance(2, 3), false),
    ),
    (
        Source::OfTwo(TEN_TRIPS, b"A(I+M)", b"A(I-3)"),
        1,
        Question::Judged(IN_TURN, Relation::Distance(1, 3), false),
    ),
    (
        Source::OfTwo(TEN_TRIPS, b"A(I+20)", b"A(I)"),
        1,
        Question::Judged(IN_TURN, Relation::Distance(1, 20), true),
    ),
    (
        Source::OfTwo(TEN_TRIPS, b"B(I,J)", b"B(I-2,J)"),
        1,
        Question::Judged(IN_TURN, Relation::Distance(2, 2), false),
    ),
    // claims of distance and range
    (
        Source::OfTwo(TEN_TRIPS, b"A(I+M)", b"A(I+M-3)"),
        1,
        Question::Judged(IN_TURN, Relation::Apart(1, Reason::Distance), false),
    ),
    (
        Source::OfTwo(TEN_TRIPS, b"A(I+M)", b"A(I+M-3)"),
        1,
        Question::Judged(IN_TURN, Relation::Apart(1, Reason::Range), false),
    ),
    (
        Source::OfTwo(TEN_TRIPS, b"A(2*I)", b"A(2*I+3)"),
        1,
        Question::Judged(IN_TURN, Relation::Apart(1, Reason::Distance), true),
    ),
    (
        Source::OfTwo(TEN_TRIPS, b"B(3,I)", b"B(4,I)"),
        1,
        Question::Judged(IN_TURN, Relation::Apart(2, Reason::Distance), true),
    ),
    // claims of constant and divisor
    (
        Source::OfTwo(TEN_TRIPS, b"A(2*I)", b"A(2*I+3)"),
        1,
        Question::Judged(IN_TURN, Relation::Apart(1, Reason::Constant), false),
    ),
    (
        Source::OfTwo(TEN_TRIPS, b"A(2*I)", b"A(2*I+4)"),
        1,
        Question::Judged(IN_TURN, Relation::Apart(1, Reason::Divisor), false),
    ),
    (
        Source::OfTwo(TEN_TRIPS, b"B(3,I)", b"B(4,I)"),
        1,
        Question::Judged(IN_TURN, Relation::Apart(2, Reason::Constant), false),
    ),
    (
        Source::OfTwo(TEN_TRIPS, b"A(J)", b"A(J+1)"),
        1,
        Question::Judged(IN_TURN, Relation::Apart(1, Reason::Constant), false),
    ),
    (
        Source::OfTwo(TEN_TRIPS, b"A(M)", b"A(M+1)"),
        1,
        Question::Judged(IN_TURN, Relation::Apart(1, Reason::Constant), true),
    ),
    (
        Source::OfTwo(TEN_TRIPS, b"A(I*I)", b"A(I*I+1)"),
        1,
        Question::Judged(IN_TURN, Relation::Apart(1, Reason::Divisor), false),
    ),
];

#[test]
fn claims_of_pairs(rt: HostRuntime) -> Result<(), Fail> {
    are_right(&rt, &CLAIMED)
}

const EVEN_AND_ODD: &[u8] = b"      INTEGER A(31)
      DO 10 I=1,10
   10 A(2*I)=A(2*I+1)+1
      DO 20 I=1,10
   20 A(I)=A(I+20)+1
      PRINT *,A(20),A(1),A(10)
      END
";

const INDEX_ARRAY: &[u8] = b"      INTEGER A(3),IX(6)
      DO 10 I=1,6
   10 IX(I)=1+MOD(I*I,3)
      DO 20 I=1,6
   20 A(IX(I))=A(IX(I))+1
      END
";

const NEGATIVE_STEP: &[u8] = b"      INTEGER A(7)
      DO 30 I=5,1,-2
   30 A(I)=A(I+2)+1
      END
";

const AHEAD: &[u8] = b"      INTEGER A(11)
      DO 20 I=1,10
   20 A(I)=A(I+1)
      END
";

static PLACED: [Row<'static>; 12] = [
    // relations of parts that never meet
    (
        Source::Whole(EVEN_AND_ODD),
        1,
        Question::Related((0, 1), Relation::Apart(1, Reason::Divisor)),
    ),
    (
        Source::Whole(EVEN_AND_ODD),
        1,
        Question::Related((1, 0), Relation::Apart(1, Reason::Divisor)),
    ),
    (
        Source::Whole(EVEN_AND_ODD),
        2,
        Question::Related((0, 1), Relation::Apart(1, Reason::Range)),
    ),
    (
        Source::Whole(EVEN_AND_ODD),
        2,
        Question::Related((1, 0), Relation::Apart(1, Reason::Distance)),
    ),
    // relations with an index array
    (
        Source::Whole(INDEX_ARRAY),
        1,
        Question::Related((0, 0), Relation::Apart(1, Reason::Distance)),
    ),
    (
        Source::Whole(INDEX_ARRAY),
        2,
        Question::Related((1, 3), Relation::Any),
    ),
    (
        Source::Whole(INDEX_ARRAY),
        2,
        Question::Related((3, 1), Relation::Any),
    ),
    (
        Source::Whole(INDEX_ARRAY),
        2,
        Question::Related((0, 2), Relation::Apart(1, Reason::Distance)),
    ),
    // relations with other steps
    (
        Source::Whole(NEGATIVE_STEP),
        1,
        Question::Related((1, 0), Relation::Distance(1, 1)),
    ),
    (
        Source::Whole(NEGATIVE_STEP),
        1,
        Question::Related((0, 1), Relation::Apart(1, Reason::Distance)),
    ),
    (
        Source::Whole(AHEAD),
        1,
        Question::Related((0, 1), Relation::Distance(1, 1)),
    ),
    (
        Source::Whole(AHEAD),
        1,
        Question::Related((1, 0), Relation::Apart(1, Reason::Distance)),
    ),
];

#[test]
fn relations_in_programs(rt: HostRuntime) -> Result<(), Fail> {
    are_right(&rt, &PLACED)
}

/// K is assigned in an arm that not all paths go through.
const ARMS: &[u8] = b"      DO 10 I=1,4
      IF (I.LT.3) THEN
      K=I
      ELSE IF (I.EQ.3) THEN
      K=0
      END IF
      L=1
      PRINT *,L
   10 CONTINUE
      PRINT *,K
      END
";

static PRIVATE: [Row<'static>; 18] = [
    // privates of plain ranges
    (
        Source::Whole(
            b"      INTEGER A(0:4)\n      DO 10 I=1,4\n      A(I)=A(I-1)+1\n      PRINT *,A(I)\n   10 K=10/(2-I)\n      END\n",
        ),
        1,
        Question::Privates(&[K]),
    ),
    (
        Source::Whole(
            b"      DO 10 I=1,5\n   10 IF (MOD(I,2).EQ.0) KT=I*10\n      PRINT *,KT\n      END\n",
        ),
        1,
        Question::Privates(&[KT]),
    ),
    (
        Source::Whole(
            b"      INTEGER A(4)\n      DO 10 I=1,4\n      A(K)=1\n   10 K=2\n      END\n",
        ),
        1,
        Question::Privates(&[]),
    ),
    (
        Source::Whole(
            b"      INTEGER A(4)\n      DO 10 I=1,4\n      READ *,K,A(K),L\n   10 PRINT *,K,L\n      END\n",
        ),
        1,
        Question::Privates(&[K, L]),
    ),
    (
        Source::Whole(b"      DO 10 I=1,4\n   10 K=K+1\n      END\n"),
        1,
        Question::Privates(&[]),
    ),
    // privates after arms
    (
        Source::Whole(
            b"      DO 10 I=1,4\n      IF (I.LT.3) THEN\n      K=I\n      ELSE\n      PRINT *,K\n      END IF\n   10 CONTINUE\n      END\n",
        ),
        1,
        Question::Privates(&[]),
    ),
    (
        Source::Whole(
            b"      DO 10 I=1,4\n      K=0\n      IF (I.LT.3) THEN\n      K=I\n      ELSE\n      PRINT *,K\n      END IF\n   10 CONTINUE\n      END\n",
        ),
        1,
        Question::Privates(&[K]),
    ),
    (
        Source::Whole(
            b"      DO 10 I=1,4\n      IF (I.LT.3) THEN\n      K=I\n      ELSE\n      K=0\n      END IF\n   10 PRINT *,K\n      END\n",
        ),
        1,
        Question::Privates(&[K]),
    ),
    (
        Source::Whole(
            b"      DO 10 I=1,4\n      IF (I.LT.3) THEN\n      K=I\n      ELSE IF (I.LT.4) THEN\n      K=0\n      END IF\n   10 PRINT *,K\n      END\n",
        ),
        1,
        Question::Privates(&[]),
    ),
    (
        Source::Whole(b"      DO 10 I=1,4\n      IF (K.GT.0) K=1\n   10 L=M\n      END\n"),
        1,
        Question::Privates(&[L]),
    ),
    (Source::Whole(ARMS), 1, Question::Privates(&[K, L])),
    // privates before a stop
    (
        Source::Whole(
            b"      DO 10 I=1,4\n      IF (I.LT.3) THEN\n      STOP\n      ELSE\n      K=0\n      END IF\n   10 PRINT *,K\n      END\n",
        ),
        1,
        Question::Privates(&[K]),
    ),
    (
        Source::Whole(b"      DO 10 I=1,4\n      STOP\n      PRINT *,K\n   10 K=1\n      END\n"),
        1,
        Question::Privates(&[K]),
    ),
    // privates of nested loops
    (
        Source::Whole(
            b"      INTEGER B(3,3)\n      DO 10 I=1,3\n      DO 10 J=1,3\n   10 B(I,J)=10*I+J\n      END\n",
        ),
        1,
        Question::Privates(&[J]),
    ),
    (
        Source::Whole(
            b"      DO 10 I=1,2\n      K=J\n      DO 10 J=1,2\n   10 CONTINUE\n      PRINT *,K,J\n      END\n",
        ),
        1,
        Question::Privates(&[K]),
    ),
    (
        Source::Whole(
            b"      DO 10 I=1,4\n      DO 20 J=1,I\n   20 K=J\n   10 PRINT *,J,K\n      END\n",
        ),
        1,
        Question::Privates(&[J]),
    ),
    (
        Source::Whole(
            b"      DO 10 I=1,4\n      DO 20 J=1,I\n      PRINT *,K\n   20 K=J\n   10 CONTINUE\n      END\n",
        ),
        1,
        Question::Privates(&[J]),
    ),
    (
        Source::Whole(
            b"      DO 10 I=1,4\n      DO 20 J=1,J\n   20 CONTINUE\n   10 CONTINUE\n      END\n",
        ),
        1,
        Question::Privates(&[]),
    ),
];

#[test]
fn private_scalars_of_loops(rt: HostRuntime) -> Result<(), Fail> {
    are_right(&rt, &PRIVATE)
}

#[test]
fn want_of_memory_in_private_scalars(rt: HostRuntime) -> Result<(), Fail> {
    is_right_again(&rt, (Source::Whole(ARMS), 1, Question::Privates(&[K, L])))
}
