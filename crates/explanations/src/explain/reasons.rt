//! Reasons for which a loop stays serial.

use crate::explain::Page;

/// The pages in the order of their numbers.
pub static PAGES: [Page; 6] = [
    Page {
        sentence: "the step is no constant other than 0",
        meaning: "Iterations run at once only where it is known which value of the variable each one has.
The third parameter of the DO must be a constant, and not 0; without one the step is 1:",
        example: "      INTEGER A(20)
      N=2
      DO 10 I=1,20,N
   10 A(I)=I
      END",
        advice: "write the step as a number, or name it in a PARAMETER statement:",
        cure: "      INTEGER A(20)
      PARAMETER (N=2)
      DO 10 I=1,20,N
   10 A(I)=I
      END",
    },
    Page {
        sentence: "there is a READ in the loop",
        meaning: "Records are read in the order of the iterations, and a loop with a READ, also in a loop
inside, runs one iteration after another:",
        example: "      INTEGER A(10)
      DO 10 I=1,10
      READ *,A(I)
   10 A(I)=A(I)*A(I)
      END",
        advice: "read in a loop of its own, and work in another one:",
        cure: "      INTEGER A(10)
      DO 10 I=1,10
   10 READ *,A(I)
      DO 20 I=1,10
   20 A(I)=A(I)*A(I)
      END",
    },
    Page {
        sentence: "the variable of a loop inside is used before it gets a value there",
        meaning: "Each iteration has variables of its own for the loops inside. That can't be where an
iteration may use such a variable before a statement of the same iteration gives it a value,
since the value is then one from before:",
        example: "      INTEGER A(10)
      DO 20 I=1,10
      A(I)=J
      DO 10 J=1,3
   10 A(I)=A(I)+J
   20 CONTINUE
      END",
        advice: "use another variable there, or give it a value first:",
        cure: "      INTEGER A(10)
      DO 20 I=1,10
      A(I)=4
      IF (I.EQ.1) A(I)=0
      DO 10 J=1,3
   10 A(I)=A(I)+J
   20 CONTINUE
      END",
    },
    Page {
        sentence: "later iterations wait for more than 64 statements",
        meaning: "A statement whose value or place a later iteration uses is a source, and each source has an
event of its own. A loop has 64 events at most.",
        example: "",
        advice: "divide the loop in two, or put values of several statements together in one.",
        cure: "",
    },
    Page {
        sentence: "a loop around it is open",
        meaning: "Iterations of one loop of a nest run at once, and it is the outermost that may. The loops
inside run one iteration after another, in each of its iterations:",
        example: "      INTEGER B(3,3)
      DO 10 I=1,3
      DO 10 J=1,3
   10 B(I,J)=I*J
      END",
        advice: "nothing, where iterations of the outer loop seldom wait. Where they mostly wait, exchange
the loops, if the answer stays the same.",
        cure: "",
    },
    Page {
        sentence: "the check refused the plan",
        meaning: "Each plan is checked by itself before it is used, and one that the check refused isn't used.
It accepts each plan that doac makes, so this number isn't met.",
        example: "",
        advice: "keep the program, which shows a mistake in doac.",
        cure: "",
    },
];
