//! Worked programs, and what is known of them.

use ast::{End, Fault, Line};
use dependence::SerialReason;

/// What a panic says where a call gives nothing again.
pub const AGAIN: &str = "there is memory for a second call";

/// What a panic says where a call gives nothing, though there was memory.
pub const OTHERWISE: &str = "a call has no other fault than want of memory";

/// What stands in the body of a plan.
#[derive(Clone, Copy, PartialEq, Eq)]
pub enum Mark {
    /// An await of this event, so many iterations back.
    Await(usize, u128),
    /// A statement of this line.
    Plain(Line),
    /// An advance of this event.
    Advance(usize),
    /// The loop whose DO has this line.
    Loop(Line),
}

/// A plan.
pub enum Planned {
    /// The loop stays serial, for this reason.
    Serial(SerialReason),
    /// It is open, and this stands in its body.
    Body(&'static [Mark]),
}

/// A loop: its lines, its private scalars, and its plan.
pub struct Range {
    pub first: Line,
    pub last: Line,
    pub privates: &'static [&'static [u8]],
    pub plan: Planned,
}

/// A program, each of whose statements has a line of its own, and what comes of it on an input.
pub struct Row {
    pub source: &'static [u8],
    pub statements: usize,
    pub loops: &'static [Range],
    /// What `check` and `list` write.
    pub accepted: &'static [u8],
    pub listing: &'static [u8],
    pub input: &'static [u8],
    pub output: &'static [u8],
    pub end: End,
    /// What is written behind the records: the fault, or the store where that is wanted.
    pub told: &'static [u8],
    pub stored: &'static [u8],
}

const READS: &[u8] = b"      READ *,I,J
      PRINT *,I,J
      READ *,I
      END
";

/// Squares, of which none waits for another.
const SQUARES: Row = Row {
    source: b"      INTEGER A(10)
      DO 10 I=1,10
   10 A(I)=I*I
      PRINT *, A(10)
      END
",
    statements: 5,
    loops: &[Range {
        first: 2,
        last: 3,
        privates: &[],
        plan: Planned::Body(&[Mark::Plain(3)]),
    }],
    accepted: b"ACCEPTED STATEMENTS 5 LOOPS 1\n",
    listing: b"LOOP 1 LINE 2 DOACROSS EVENTS 0\n",
    input: b"",
    output: b" 100\n",
    end: End::Done,
    told: b"",
    stored: b"A(1) = 1
A(2) = 4
A(3) = 9
A(4) = 16
A(5) = 25
A(6) = 36
A(7) = 49
A(8) = 64
A(9) = 81
A(10) = 100
I = 11
",
};

/// A distance of two: only every second iteration waits.
const TWO_APART: Row = Row {
    source: b"      INTEGER A(8)
      DO 10 I=3,8
   10 A(I)=A(I-2)+1
      PRINT *,A(3),A(4),A(5),A(6),A(7),A(8)
      END
",
    statements: 5,
    loops: &[Range {
        first: 2,
        last: 3,
        privates: &[],
        plan: Planned::Body(&[
            Mark::Await(1, 2),
            Mark::Plain(3),
            Mark::Await(1, 1),
            Mark::Advance(1),
        ]),
    }],
    accepted: b"ACCEPTED STATEMENTS 5 LOOPS 1\n",
    listing: b"LOOP 1 LINE 2 DOACROSS EVENTS 1
 EVENT 1 SOURCE LINE 3
 AWAIT 1 2 BEFORE LINE 3
 ADVANCE 1 AFTER LINE 3
",
    input: b"",
    output: b" 1 1 2 2 3 3\n",
    end: End::Done,
    told: b"",
    stored: b"A(1) = 0
A(2) = 0
A(3) = 1
A(4) = 1
A(5) = 2
A(6) = 2
A(7) = 3
A(8) = 3
I = 9
",
};

/// Records, and a fault in the second iteration.
const FAULTS: Row = Row {
    source: b"      INTEGER A(0:4)
      DO 10 I=1,4
      A(I)=A(I-1)+1
      PRINT *,A(I)
   10 K=10/(2-I)
      END
",
    statements: 6,
    loops: &[Range {
        first: 2,
        last: 5,
        privates: &[b"K"],
        plan: Planned::Body(&[
            Mark::Await(1, 1),
            Mark::Plain(3),
            Mark::Await(1, 1),
            Mark::Advance(1),
            Mark::Plain(4),
            Mark::Plain(5),
        ]),
    }],
    accepted: b"ACCEPTED STATEMENTS 6 LOOPS 1\n",
    listing: b"LOOP 1 LINE 2 DOACROSS EVENTS 1
 PRIVATE K
 EVENT 1 SOURCE LINE 3
 AWAIT 1 1 BEFORE LINE 3
 ADVANCE 1 AFTER LINE 3
",
    input: b"",
    output: b" 1\n 2\n",
    end: End::Fault(Fault::ZeroDivisor, 5),
    told: b"FAULT 3 ZERO DIVISOR LINE 5\n",
    stored: b"",
};

/// Elements chosen through an index array: each iteration waits for the one before.
const INDEX_ARRAY: Row = Row {
    source: b"      INTEGER A(3),IX(6)
      DO 10 I=1,6
   10 IX(I)=1+MOD(I*I,3)
      DO 20 I=1,6
   20 A(IX(I))=A(IX(I))+1
      PRINT *,A(1),A(2),A(3)
      END
",
    statements: 7,
    loops: &[
        Range {
            first: 2,
            last: 3,
            privates: &[],
            plan: Planned::Body(&[Mark::Plain(3)]),
        },
        Range {
            first: 4,
            last: 5,
            privates: &[],
            plan: Planned::Body(&[
                Mark::Await(1, 1),
                Mark::Plain(5),
                Mark::Await(1, 1),
                Mark::Advance(1),
            ]),
        },
    ],
    accepted: b"ACCEPTED STATEMENTS 7 LOOPS 2\n",
    listing: b"LOOP 1 LINE 2 DOACROSS EVENTS 0
LOOP 2 LINE 4 DOACROSS EVENTS 1
 EVENT 1 SOURCE LINE 5
 AWAIT 1 1 BEFORE LINE 5
 ADVANCE 1 AFTER LINE 5
",
    input: b"",
    output: b" 2 4 0\n",
    end: End::Done,
    told: b"",
    stored: b"A(1) = 2
A(2) = 4
A(3) = 0
I = 7
IX(1) = 2
IX(2) = 2
IX(3) = 1
IX(4) = 2
IX(5) = 2
IX(6) = 1
",
};

/// A READ takes a second record; then the input is at its end.
const READS_TWO_RECORDS: Row = Row {
    source: READS,
    statements: 4,
    loops: &[],
    accepted: b"ACCEPTED STATEMENTS 4 LOOPS 0\n",
    listing: b"",
    input: b"3\n4 9\n",
    output: b" 3 4\n",
    end: End::Fault(Fault::EndOfInput, 3),
    told: b"FAULT 5 END OF INPUT LINE 3\n",
    stored: b"",
};

/// Nothing stands between two commas.
const READS_NO_VALUE: Row = Row {
    source: READS,
    statements: 4,
    loops: &[],
    accepted: b"ACCEPTED STATEMENTS 4 LOOPS 0\n",
    listing: b"",
    input: b"3,,4\n",
    output: b"",
    end: End::Fault(Fault::BadInput, 1),
    told: b"FAULT 6 BAD INPUT LINE 1\n",
    stored: b"",
};

/// More operands, private scalars and inner loops than a frame holds without memory.
const WIDE: Row = Row {
    source: b"      INTEGER A(0:3)
      DO 20 I=1,3
      A(I)=A(I-1)+I
      N=0
      DO 10 J=1,2
      DO 10 K=1,2
      DO 10 L=1,2
      DO 10 M=1,2
      DO 10 II=1,1
   10 N=N+1
      IJ=N+I
      IK=IJ+I
      IL=IK+I
   20 PRINT *,A(I),N,IJ,IK,IL,J,1,2,3,4,5,6,7,8,9,10,11,12
      END
",
    statements: 15,
    loops: &[
        Range {
            first: 2,
            last: 14,
            privates: &[b"N", b"J", b"K", b"L", b"M", b"II", b"IJ", b"IK", b"IL"],
            plan: Planned::Body(&[
                Mark::Await(1, 1),
                Mark::Plain(3),
                Mark::Await(1, 1),
                Mark::Advance(1),
                Mark::Plain(4),
                Mark::Loop(5),
                Mark::Plain(11),
                Mark::Plain(12),
                Mark::Plain(13),
                Mark::Plain(14),
            ]),
        },
        Range {
            first: 5,
            last: 10,
            privates: &[b"K", b"L", b"M", b"II"],
            plan: Planned::Serial(SerialReason::Inside),
        },
        Range {
            first: 6,
            last: 10,
            privates: &[b"L", b"M", b"II"],
            plan: Planned::Serial(SerialReason::Inside),
        },
        Range {
            first: 7,
            last: 10,
            privates: &[b"M", b"II"],
            plan: Planned::Serial(SerialReason::Inside),
        },
        Range {
            first: 8,
            last: 10,
            privates: &[b"II"],
            plan: Planned::Serial(SerialReason::Inside),
        },
        Range {
            first: 9,
            last: 10,
            privates: &[],
            plan: Planned::Serial(SerialReason::Inside),
        },
    ],
    accepted: b"ACCEPTED STATEMENTS 15 LOOPS 6\n",
    listing: b"LOOP 1 LINE 2 DOACROSS EVENTS 1
 PRIVATE II IJ IK IL J K L M N
 EVENT 1 SOURCE LINE 3
 AWAIT 1 1 BEFORE LINE 3
 ADVANCE 1 AFTER LINE 3
LOOP 2 LINE 5 SERIAL 5
LOOP 3 LINE 6 SERIAL 5
LOOP 4 LINE 7 SERIAL 5
LOOP 5 LINE 8 SERIAL 5
LOOP 6 LINE 9 SERIAL 5
",
    input: b"",
    output: b" 1 16 17 18 19 3 1 2 3 4 5 6 7 8 9 10 11 12
 3 16 18 20 22 3 1 2 3 4 5 6 7 8 9 10 11 12
 6 16 19 22 25 3 1 2 3 4 5 6 7 8 9 10 11 12
",
    end: End::Done,
    told: b"",
    stored: b"A(0) = 0
A(1) = 1
A(2) = 3
A(3) = 6
I = 4
II = 2
IJ = 19
IK = 22
IL = 25
J = 3
K = 3
L = 3
M = 3
N = 16
",
};

static ROWS: [Row; 7] = [
    SQUARES,
    TWO_APART,
    FAULTS,
    INDEX_ARRAY,
    READS_TWO_RECORDS,
    READS_NO_VALUE,
    WIDE,
];

/// The programs.
pub fn rows() -> &'static [Row] {
    &ROWS
}
