//! Which statement is in the way where a loop stays serial.

use crate::asked::{Question, Row, Source, are_right, is_right_again};
use crate::looks::Lines;
use ast::Name;
use std::process::Abort;
use std::test::Fail;

/// Two READs, the first in an arm of an IF in a loop inside.
const READS: &[u8] = b"      DO 20 I=1,2
      K=I
      DO 10 J=1,2
      IF (J.EQ.I) THEN
      L=J
      ELSE
      READ *,M
      END IF
   10 CONTINUE
      READ *,K
   20 CONTINUE
      END
";

/// J is private, and N and K aren't.
const VARIABLES: &[u8] = b"      DO 10 I=1,2
      DO 20 J=1,2
   20 L=J
      M=N+K
      IF (I.GT.1) THEN
      DO 30 N=1,2
      DO 30 K=1,2
   30 L=N
      END IF
   10 CONTINUE
      END
";

/// The IF is a source by the condition of its ELSE IF, and both statements of a line are sources.
const SOURCES: &[u8] = b"      DO 10 I=1,9
      IF (I.GT.3) THEN
      K=K+I
      J=I
      ELSE IF (L.GT.2) THEN
      L=L+I
      END IF
      IF (M.GT.2) M=M+1
   10 CONTINUE
      END
";

/// The scalar N.
const N: Name = Name {
    letters: [b'N', b' ', b' ', b' ', b' ', b' '],
};

const FIVE_SOURCES: Row<'static> = (
    Source::Whole(SOURCES),
    1,
    Question::Sources(Lines::These(&[2, 3, 6, 8, 8])),
);

static OBSTACLES: [Row<'static>; 7] = [
    (Source::Whole(READS), 1, Question::Read(Some(7))),
    (Source::Whole(VARIABLES), 1, Question::Read(None)),
    (Source::Whole(VARIABLES), 1, Question::Shared(Some((N, 6)))),
    (Source::Whole(SOURCES), 1, Question::Shared(None)),
    FIVE_SOURCES,
    // as many sources as are given, and more
    (
        Source::Counting(64),
        1,
        Question::Sources(Lines::Many(64, 66)),
    ),
    (
        Source::Counting(70),
        1,
        Question::Sources(Lines::Many(65, 67)),
    ),
];

#[test]
fn first_obstacles(rt: HostRuntime) -> Result<(), Fail> {
    are_right(&rt, &OBSTACLES)
}

#[test]
fn want_of_memory_in_sources(rt: HostRuntime) -> Result<(), Fail> {
    is_right_again(&rt, FIVE_SOURCES)
}
