//! Worked programs, and what their runs are set beside.

use crate::sure;
use ast::{Answer, End, Fault, Program, Refusal};
use codegen::compile;
use interpreter::run_seq;
use machine::Code;
use profile_check::program;
use std::alloc::Global;
use std::process::Abort;

/// A program with an input, the records that it prints, and its end.
pub struct Worked {
    pub name: &'static str,
    pub source: &'static [u8],
    pub input: &'static [u8],
    pub output: &'static [u8],
    pub end: End,
}

/// Squares, of which none waits for another.
pub const SQUARES: &[u8] = b"      INTEGER A(10)
      DO 10 I=1,10
   10 A(I)=I*I
      PRINT *, A(10)
      END
";

/// A distance of two: only every second iteration waits.
pub const TWO_APART: &[u8] = b"      INTEGER A(8)
      DO 10 I=3,8
   10 A(I)=A(I-2)+1
      PRINT *,A(3),A(4),A(5),A(6),A(7),A(8)
      END
";

/// Records, and a fault in the second iteration.
pub const FAULTS: &[u8] = b"      INTEGER A(0:4)
      DO 10 I=1,4
      A(I)=A(I-1)+1
      PRINT *,A(I)
   10 K=10/(2-I)
      END
";

/// Elements chosen through an index array: each iteration waits for the one before.
pub const INDEX_ARRAY: &[u8] = b"      INTEGER A(3),IX(6)
      DO 10 I=1,6
   10 IX(I)=1+MOD(I*I,3)
      DO 20 I=1,6
   20 A(IX(I))=A(IX(I))+1
      PRINT *,A(1),A(2),A(3)
      END
";

static WORKED: [Worked; 36] = [
    Worked {
        name: "only end",
        source: b"      END\n",
        input: b"",
        output: b"",
        end: End::Done,
    },
    Worked {
        name: "squares",
        source: SQUARES,
        input: b"",
        output: b" 100\n",
        end: End::Done,
    },
    Worked {
        name: "blanks mean nothing",
        source: b"      I N T E G E R  TO
     1TAL
      D O 1 0 I = 1 , 3
   10 T O T A L = TOTAL + I
      PRINT *,'SUM',TOTAL
      END
",
        input: b"",
        output: b" SUM 6\n",
        end: End::Done,
    },
    Worked {
        name: "distance two",
        source: TWO_APART,
        input: b"",
        output: b" 1 1 2 2 3 3\n",
        end: End::Done,
    },
    Worked {
        name: "read before write",
        source: b"      INTEGER A(11)
      DO 10 I=1,11
   10 A(I)=I
      DO 20 I=1,10
   20 A(I)=A(I+1)
      PRINT *,A(1),A(10),A(11)
      END
",
        input: b"",
        output: b" 2 11 11\n",
        end: End::Done,
    },
    Worked {
        name: "fault after prints",
        source: FAULTS,
        input: b"",
        output: b" 1\n 2\n",
        end: End::Fault(Fault::ZeroDivisor, 5),
    },
    Worked {
        name: "empty and negative steps",
        source: b"      INTEGER A(7)
      DO 10 I=3,1
   10 K=K+1
      PRINT *,I,K
      DO 20 I=1,10,4
   20 CONTINUE
      PRINT *,I
      DO 30 I=5,1,-2
   30 A(I)=A(I+2)+1
      PRINT *,I,A(5),A(3),A(1)
      END
",
        input: b"",
        output: b" 3 0\n 13\n -1 1 2 3\n",
        end: End::Done,
    },
    Worked {
        name: "last increment overflows",
        source: b"      DO 10 I=9223372036854775806,9223372036854775807
   10 PRINT *,I
      END
",
        input: b"",
        output: b" 9223372036854775806\n 9223372036854775807\n",
        end: End::Fault(Fault::Overflow, 1),
    },
    Worked {
        name: "zero step",
        source: b"      DO 10 I=1,5,0
   10 CONTINUE
      END
",
        input: b"",
        output: b"",
        end: End::Fault(Fault::ZeroStep, 1),
    },
    Worked {
        name: "source in one branch",
        source: b"      INTEGER A(0:6)
      DO 10 I=1,6
      IF (MOD(I,2).EQ.0) THEN
      A(I)=A(I-2)+1
      END IF
   10 CONTINUE
      PRINT *,A(2),A(4),A(6)
      END
",
        input: b"",
        output: b" 1 2 3\n",
        end: End::Done,
    },
    Worked {
        name: "private last writer",
        source: b"      DO 10 I=1,5
   10 IF (MOD(I,2).EQ.0) KT=I*10
      PRINT *,KT
      END
",
        input: b"",
        output: b" 40\n",
        end: End::Done,
    },
    Worked {
        name: "index array",
        source: INDEX_ARRAY,
        input: b"",
        output: b" 2 4 0\n",
        end: End::Done,
    },
    Worked {
        name: "even and odd",
        source: b"      INTEGER A(31)
      DO 10 I=1,10
   10 A(2*I)=A(2*I+1)+1
      DO 20 I=1,10
   20 A(I)=A(I+20)+1
      PRINT *,A(20),A(1),A(10)
      END
",
        input: b"",
        output: b" 1 1 1\n",
        end: End::Done,
    },
    Worked {
        name: "truncation and quotes",
        source: b"      PRINT *, -7/2, MOD(-7,3), 'IT''S', 5\n      END\n",
        input: b"",
        output: b" -3 -1IT'S 5\n",
        end: End::Done,
    },
    Worked {
        name: "read over two records",
        source: b"      READ *,I,J
      PRINT *,I,J
      READ *,I
      END
",
        input: b"3\n4 9\n",
        output: b" 3 4\n",
        end: End::Fault(Fault::EndOfInput, 3),
    },
    Worked {
        name: "null value in input",
        source: b"      READ *,I,J
      PRINT *,I,J
      READ *,I
      END
",
        input: b"3,,4\n",
        output: b"",
        end: End::Fault(Fault::BadInput, 1),
    },
    Worked {
        name: "shared terminal",
        source: b"      INTEGER B(3,3)
      DO 10 I=1,3
      DO 10 J=1,3
   10 B(I,J)=10*I+J
      PRINT *,B(1,3),B(3,1)
      END
",
        input: b"",
        output: b" 13 31\n",
        end: End::Done,
    },
    Worked {
        name: "inner variable not private",
        source: b"      DO 10 I=1,2
      K=J
      DO 10 J=1,2
   10 CONTINUE
      PRINT *,K,J
      END
",
        input: b"",
        output: b" 3 3\n",
        end: End::Done,
    },
    Worked {
        name: "carriage returns",
        source: b"c note\r\n      print *,1+\r\n* note\r\n     &2*3\r\n      end\r\n",
        input: b"",
        output: b" 7\n",
        end: End::Done,
    },
    Worked {
        name: "least integer",
        source: b"      K=-9223372036854775807-1
      PRINT *,K,MOD(K,-1)
      PRINT *,K/(-1)
      END
",
        input: b"",
        output: b" -9223372036854775808 0\n",
        end: End::Fault(Fault::Overflow, 3),
    },
    Worked {
        name: "two arrays one event",
        source: b"      INTEGER A(0:5),B(0:5)
      DO 10 I=1,5
      A(I)=B(I-1)+1
   10 B(I)=A(I)*2
      PRINT *,A(5),B(5)
      END
",
        input: b"",
        output: b" 31 62\n",
        end: End::Done,
    },
    Worked {
        name: "integer total",
        source: b"      INTEGER TOTAL
      TOTAL = 2
      K = TOTAL*(3+4)/5 - 1
      PRINT *, TOTAL, K, 'OK', -K
      END
",
        input: b"",
        output: b" 2 1OK -1\n",
        end: End::Done,
    },
    Worked {
        name: "zero divisor",
        source: b"      K=1/0\n      END\n",
        input: b"",
        output: b"",
        end: End::Fault(Fault::ZeroDivisor, 1),
    },
    Worked {
        name: "parameter bounds",
        source: b"      PARAMETER (N=3,M=N*N-1)
      INTEGER A(N,0:M)
      DO 10 J=0,M
      DO 10 I=1,N
   10 A(I,J)=I*J
      PRINT *,M,A(3,8)
      PRINT *,A(4,0)
      END
",
        input: b"",
        output: b" 8 24\n",
        end: End::Fault(Fault::Index, 7),
    },
    Worked {
        name: "if arms",
        source: b"      DO 10 I=1,4
      IF (MOD(I,4).EQ.0) THEN
      PRINT *,'FOUR'
      ELSE IF (I.GT.1 .EQV. I.LT.3) THEN
      PRINT *,I
      ELSE
      PRINT *,MAX(I,2,-I),ABS(-I)
      END IF
   10 CONTINUE
      END
",
        input: b"",
        output: b" 2 1\n 2\n 3 3\n FOUR\n",
        end: End::Done,
    },
    Worked {
        name: "read into element",
        source: b"      INTEGER A(3)
      READ *,N,A(N)
      PRINT *,N,A(2)
      END
",
        input: b"2 , 7\n",
        output: b" 2 7\n",
        end: End::Done,
    },
    Worked {
        name: "read into no element",
        source: b"      INTEGER A(3)
      READ *,N,A(N)
      PRINT *,N,A(2)
      END
",
        input: b"4,7\n",
        output: b"",
        end: End::Fault(Fault::Index, 2),
    },
    Worked {
        name: "read and write spelled",
        source: b"      READ(*,*) I
      WRITE(*,*) I+1
      END
",
        input: b"4\n",
        output: b" 5\n",
        end: End::Done,
    },
    Worked {
        name: "both operands",
        source: b"      IF (N.NE.0 .AND. 10/N.GT.1) K=1\n      END\n",
        input: b"",
        output: b"",
        end: End::Fault(Fault::ZeroDivisor, 1),
    },
    Worked {
        name: "nested rows",
        source: b"      INTEGER B(0:3,3)
      DO 10 I=1,3
      DO 20 J=1,3
   20 B(I,J)=B(I-1,J)+J
   10 CONTINUE
      PRINT *,B(3,1),B(3,3)
      END
",
        input: b"",
        output: b" 3 9\n",
        end: End::Done,
    },
    Worked {
        name: "scalar carried between arms",
        source: b"      DO 10 I=1,4
      IF (I.LT.3) THEN
      K=I
      ELSE
      PRINT *,K
      END IF
   10 CONTINUE
      END
",
        input: b"",
        output: b" 2\n 2\n",
        end: End::Done,
    },
    Worked {
        name: "stop in loop",
        source: b"      INTEGER A(0:6)
      DO 10 I=1,6
      A(I)=A(I-1)+I
      PRINT *,A(I)
      IF (A(I).GT.5) STOP
   10 CONTINUE
      END
",
        input: b"",
        output: b" 1\n 3\n 6\n",
        end: End::Stopped(5),
    },
    Worked {
        name: "awaits of one line",
        source: b"      K=1
      DO 10 I=1,3
      IF (I.LT.K+2) L=L+K
   10 K=K*2
      PRINT *,K,L
      END
",
        input: b"",
        output: b" 8 7\n",
        end: End::Done,
    },
    Worked {
        name: "relations in one listing",
        source: b"      INTEGER A(60),B(6,20)
      M=5
      DO 10 I=1,10
   10 A(I+M)=A(I+M-3)+1
      DO 20 I=1,10
   20 A(2*I)=A(2*I+3)+1
      DO 30 I=1,10
   30 B(3,I)=B(4,I)+1
      DO 40 I=1,7
   40 A(I*I)=A(I)+1
      DO 50 I=4,10,2
   50 A(I)=A(I-3)+1
      PRINT *,A(15),A(20),B(3,10),A(49),A(10)
      END
",
        input: b"",
        output: b" 4 1 1 2 2\n",
        end: End::Done,
    },
    Worked {
        name: "bounds from own variable",
        source: b"      I=5
      DO 10 I=I,I+2
   10 PRINT *,I
      PRINT *,I
      END
",
        input: b"",
        output: b" 5\n 6\n 7\n 8\n",
        end: End::Done,
    },
    Worked {
        name: "do with comma",
        source: b"      DO 10,I=1,2
   10 PRINT *,I
      DO20J=3,4
   20 PRINT *,J
      END
",
        input: b"",
        output: b" 1\n 2\n 3\n 4\n",
        end: End::Done,
    },
];

/// The programs.
pub fn programs() -> &'static [Worked] {
    &WORKED
}

/// The program of a source.
fn read(alloc: Global, source: &[u8]) -> Result<Program, Refusal> {
    program(alloc, source)
}

/// The code of a program.
fn code_of(alloc: Global, program: &Program) -> Result<Code, Refusal> {
    let compiled = compile(alloc, program)?;
    Ok(compiled.code)
}

pub fn compiled(alloc: Global, source: &[u8]) -> Result<Code, Refusal> {
    code_of(alloc, &read(alloc, source)?)
}

/// The sequential answer of a program.
fn answer_of(alloc: Global, program: &Program, input: &[u8]) -> Result<Answer, Refusal> {
    Ok(run_seq(alloc, program, input)?)
}

/// The sequential answer.
pub fn sequential(alloc: Global, source: &[u8], input: &[u8]) -> Result<Answer, Refusal> {
    answer_of(alloc, &read(alloc, source)?, input)
}

/// Whether an answer has the records and the end that a worked program should have.
fn is_worked_out(answer: &Answer, row: &Worked) -> bool {
    answer.output.as_slice() == row.output && answer.end == row.end
}

/// The sequential answer of a worked program.
pub fn worked_out(rt: &(impl Abort + AllocGlobal), row: &Worked) -> Answer {
    let answer = sure::sequential(rt, row.source, row.input);
    assert!(*rt; is_worked_out(&answer, row), "{}", row.name);
    answer
}

/// Whether two stores have the same values, name by name.
fn same_stores(code: &Code, one: &Answer, other: &Answer) -> bool {
    for variable in &code.variables {
        for place in 0..variable.size {
            if one.store.value(variable.name, place) != other.store.value(variable.name, place) {
                return false;
            }
        }
    }
    true
}

/// Whether two runs came to the same: the same records and end, and where that is END the same
/// store.
pub fn same_answers(code: &Code, one: &Answer, other: &Answer) -> bool {
    one.output == other.output
        && one.end == other.end
        && (one.end != End::Done || same_stores(code, one, other))
}
