//! The faults, each with a program that has it and one that is cured.

use crate::explain::Page;

/// The pages in the order of their numbers.
pub static PAGES: [Page; 6] = [
    Page {
        sentence: "a result is too large for an INTEGER",
        meaning: "An INTEGER holds the whole numbers from -9223372036854775808 to
9223372036854775807. An operation of the line gave a number outside of them, here in
the second statement:",
        example: "      K=9223372036854775807
      K=K+1
      END",
        advice: "print the values of the line's names in the line before, and look for the
operation that leaves the range. A remainder is kept small by taking MOD after each
step, and a count by stopping in time:",
        cure: "      K=9223372036854775807
      IF (K.LT.9223372036854775807) K=K+1
      END",
    },
    Page {
        sentence: "a subscript is out of bounds",
        meaning: "Each subscript of an array's element lies from the lower bound of its dimension, which
is 1 where none is declared, to the upper one. Here I is 4 in the last trip:",
        example: "      INTEGER A(3)
      DO 10 I=1,4
   10 A(I)=I
      END",
        advice: "print the subscripts before the line, and look at the limits of the loops
around it. Of .AND. and .OR. both sides have to have a value, so one side guards
nothing in the other: put one IF into another. If the subscripts are right, declare
more elements:",
        cure: "      INTEGER A(4)
      DO 10 I=1,4
   10 A(I)=I
      END",
    },
    Page {
        sentence: "a division by zero",
        meaning: "The divisor of a /, or the second argument of MOD, was 0 when the line ran. A name that
was never assigned is 0, so this line faults wherever N has no value yet:",
        example: "      K=10/N
      END",
        advice: "assign the divisor before the line, and look for a name that is spelled in
two ways. Of .AND. and .OR. both sides have to have a value, so one side guards
nothing in the other: put one IF into another. Here a value was missing:",
        cure: "      N=5
      K=10/N
      END",
    },
    Page {
        sentence: "a DO that counts by zero",
        meaning: "The third number of a DO is what its variable grows by after each trip, and it may not
be 0. A name that was never assigned is 0:",
        example: "      DO 10 I=1,10,N
   10 PRINT *,I
      END",
        advice: "assign the step before the DO, or leave it out where it is 1. A step below
zero counts down:",
        cure: "      DO 10 I=10,1,-1
   10 PRINT *,I
      END",
    },
    Page {
        sentence: "there is no record left to read",
        meaning: "Each READ takes at least one line of the input, and goes on to the next lines until
all its items have values. With an input of two lines the third trip faults:",
        example: "      DO 10 I=1,3
      READ *,K
   10 PRINT *,K
      END

with the input

7
8",
        advice: "add the lines that are missing, or read the number of lines first and loop
that often. The input is the file named behind that of the source; without one it is
empty:",
        cure: "      READ *,N
      DO 10 I=1,N
      READ *,K
   10 PRINT *,K
      END

with the input

2
7
8",
    },
    Page {
        sentence: "a record that isn't made of integers",
        meaning: "A line of the input holds integers, and between two of them blanks or one comma. Other
characters, a comma with nothing on one side, and numbers outside of the INTEGER's
range make it malformed, as 3,,4 and 3.5 and 2*1 are:",
        example: "      READ *,I,J
      PRINT *,I+J
      END

with the input

3,,4",
        advice: "write every value out as a whole number, with blanks or a comma between
them:",
        cure: "      READ *,I,J
      PRINT *,I+J
      END

with the input

3, -4",
    },
];
