//! The rules for whole programs, each with a source that breaks it and one that is cured.

use crate::explain::Page;

/// The pages in the order of their numbers.
pub static PAGES: [Page; 14] = [
    Page {
        sentence: "statements are in the wrong order",
        meaning: "PROGRAM comes first, then the declarations (INTEGER, DIMENSION, PARAMETER), then all
other statements:",
        example: "      K=1
      INTEGER L
      END",
        advice: "move the declaration to the top of the program, below PROGRAM:",
        cure: "      INTEGER L
      K=1
      END",
    },
    Page {
        sentence: "a name is not an integer",
        meaning: "A name that begins with one of the letters I to N is an integer. Any other name would
be a real number, unless an INTEGER statement says otherwise:",
        example: "      TOTAL=1
      END",
        advice: "declare the name at the top of the program, or choose one that begins
with I to N:",
        cure: "      INTEGER TOTAL
      TOTAL=1
      END",
    },
    Page {
        sentence: "a name has two meanings",
        meaning: "A name gets its type, its bounds and its value as a constant at most once each, and a
constant has no bounds. The program's name, and ABS, IABS, MAX, MAX0, MIN, MIN0 and
MOD, which are functions, can't be variables.",
        example: "      INTEGER I,J,I
      END",
        advice: "take one of the two declarations out, or choose another name:",
        cure: "      INTEGER I,J
      END",
    },
    Page {
        sentence: "subscripts or arguments that don't fit",
        meaning: "An element has as many subscripts as its array has dimensions, a name with parentheses
is an array or a function, and an array never stands without subscripts. MOD has two
arguments, ABS and IABS one, and the others at least two:",
        example: "      INTEGER A(10)
      A=0
      END",
        advice: "count the subscripts against the declaration, and declare the array if it
has none. All elements are set by a loop:",
        cure: "      INTEGER A(10)
      DO 10 I=1,10
   10 A(I)=0
      END",
    },
    Page {
        sentence: "a loop has no end, or two loops cross",
        meaning: "A DO names the label of its last statement, which stands below it. Of two loops one
holds the other, so the inner one ends first, or both end at the same statement. A
loop whose label is missing is refused at the line of END:",
        example: "      DO 10 I=1,3
      DO 20 J=1,3
   10 PRINT *,I
   20 PRINT *,J
      END",
        advice: "look for the label behind DO in columns 1 to 5 of the lines below, and
exchange the ends of loops that cross:",
        cure: "      DO 10 I=1,3
      DO 20 J=1,3
   20 PRINT *,J
   10 PRINT *,I
      END",
    },
    Page {
        sentence: "a loop ends with a statement that can't end it",
        meaning: "The last statement of a loop is none of DO, IF with THEN, ELSE IF, ELSE, END IF, STOP
and END:",
        example: "      DO 10 I=1,3
      IF (I.EQ.2) THEN
      PRINT *,I
   10 END IF
      END",
        advice: "move the label to a CONTINUE behind the statement:",
        cure: "      DO 10 I=1,3
      IF (I.EQ.2) THEN
      PRINT *,I
      END IF
   10 CONTINUE
      END",
    },
    Page {
        sentence: "the parts of an IF don't fit together",
        meaning: "Each IF with THEN has its own END IF. Between them stand ELSE IFs, and then one ELSE at
most. A loop and an IF block don't cross: what begins inside ends inside. In an IF
without THEN no DO, no other IF, no declaration and no END may stand.",
        example: "      IF (K.EQ.0) THEN
      PRINT *,1
      END",
        advice: "write END IF where the block ends, and look for a loop that ends inside of
the block though it began before it:",
        cure: "      IF (K.EQ.0) THEN
      PRINT *,1
      END IF
      END",
    },
    Page {
        sentence: "a loop's variable is changed inside of the loop",
        meaning: "As long as a loop runs, its variable belongs to it: no assignment, no READ and no
inner DO may use it as a target:",
        example: "      DO 10 I=1,9
   10 I=I+1
      END",
        advice: "count with another name, or give the DO a step:",
        cure: "      DO 10 I=1,9,2
   10 PRINT *,I
      END",
    },
    Page {
        sentence: "a constant is given a value",
        meaning: "A name that PARAMETER gives a value keeps it. It can't be assigned, read, or be the
variable of a DO:",
        example: "      PARAMETER (N=10)
      N=N+1
      END",
        advice: "copy the constant into a variable and change that:",
        cure: "      PARAMETER (N=10)
      M=N
      M=M+1
      END",
    },
    Page {
        sentence: "the bounds of an array can't be",
        meaning: "An array has one to seven dimensions, and in none of them is the upper bound below the
lower one. A single bound is the upper one, and the lower one is 1:",
        example: "      INTEGER A(0)
      END",
        advice: "write the lower bound first. An array of no elements doesn't exist:",
        cure: "      INTEGER A(0:9)
      END",
    },
    Page {
        sentence: "the program is too large",
        meaning: "A program has at most 4,096 statements, END counted, 512 names, and 1,048,576 elements
of arrays in all; DO and IF blocks nest at most 16 deep. The line of the refusal is
that of the first statement that goes past a limit:",
        example: "      INTEGER A(1024,1025)
      END",
        advice: "declare fewer elements, use an array again where its values aren't needed
any more, and put several items into one PRINT:",
        cure: "      INTEGER A(1024,1024)
      END",
    },
    Page {
        sentence: "a label stands twice",
        meaning: "Each label, the number in columns 1 to 5, stands at one statement alone. Blanks and
leading zeros don't count, so 10 and 010 are one label:",
        example: "   10 K=1
  010 K=2
      END",
        advice: "change one of the two:",
        cure: "   10 K=1
   20 K=2
      END",
    },
    Page {
        sentence: "a bound or a constant has no value before the run",
        meaning: "Bounds and the values in PARAMETER are computed before the program runs. They are made
of integer constants, of names that a PARAMETER statement above gives a value, and of
operators; variables, elements and functions have no value yet, and the computation may
not overflow or divide by zero:",
        example: "      INTEGER A(N)
      PARAMETER (N=10)
      END",
        advice: "write the PARAMETER statement above the declaration, or the number itself:",
        cure: "      PARAMETER (N=10)
      INTEGER A(N)
      END",
    },
    Page {
        sentence: "a number where a truth value belongs, or the other way round",
        meaning: "The condition of an IF, and the operands of .AND., .OR., .NOT., .EQV. and .NEQV., are
truth values, which come from .TRUE., .FALSE. and comparisons such as K.GT.0. All other
operands, subscripts, and what is assigned and printed are integers:",
        example: "      IF (K) PRINT *,K
      END",
        advice: "write the comparison out, K.NE.0 in the place of K. To keep a truth value,
assign 1 or 0 in an IF:",
        cure: "      L=0
      IF (K.NE.0) L=1
      END",
    },
];
