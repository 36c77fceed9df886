//! The rules for single statements, each with a source that breaks it and one that is cured.

use crate::explain::Page;

/// The pages in the order of their numbers.
pub static PAGES: [Page; 8] = [
    Page {
        sentence: "no statement begins so",
        meaning: "The text in columns 7 to 72 is no assignment, since it has no = outside of
parentheses, and it begins with no word that names a statement:",
        example: "      PRNT *,1
      END",
        advice: "look at the spelling of the first word, and for an = that is missing. A
line with a label and nothing else is refused so as well; give it a CONTINUE:",
        cure: "      PRINT *,1
   10 CONTINUE
      END",
    },
    Page {
        sentence: "a character constant has no end",
        meaning: "A text stands between two apostrophes, and both stand in columns 7 to 72. An
apostrophe inside of the text is written twice. Here the text ends behind IT, and
another one begins behind HERE:",
        example: "      PRINT *,'IT'S HERE'
      END",
        advice: "write the second apostrophe, double the one inside, or shorten a line that
goes past column 72:",
        cure: "      PRINT *,'IT''S HERE'
      END",
    },
    Page {
        sentence: "a real constant",
        meaning: "Numbers here are whole. A number with a point or an exponent is a real one, as
1.5, .5, 2. and 1E3 are. A point in the place of a comma makes one too, as in
DO 10 I=1.10:",
        example: "      K=1.5
      END",
        advice: "compute in whole numbers, say in hundredths, 150 in the place of 1.5:",
        cure: "      K=150
      END",
    },
    Page {
        sentence: "a constant is too large",
        meaning: "The largest constant is 9223372036854775807. A minus before a number is no part of
it, so the least INTEGER can't be written as one constant:",
        example: "      K=-9223372036854775808
      END",
        advice: "write a smaller number, and the least INTEGER as a difference:",
        cure: "      K=-9223372036854775807-1
      END",
    },
    Page {
        sentence: "a name is too long",
        meaning: "A name has one to six letters and digits, the first of them a letter. Blanks don't
end a name, so two words side by side are one name too:",
        example: "      NUMBERS=1
      END",
        advice: "shorten the name to six characters:",
        cure: "      NUMBER=1
      END",
    },
    Page {
        sentence: "the statement is not well formed",
        meaning: "The statement was recognised by its first word or its =, and what follows breaks the
rules. Common causes are ** (there is no power), a comment behind !, a text between
quotation marks, a name with _, the :: of a later FORTRAN, several statements with ;
between them, a DO without a label, an operand that is missing, a parenthesis that
isn't closed, a line cut off at column 72, and two operators side by side:",
        example: "      K=2*-3
      END",
        advice: "write a sign behind an operator in parentheses, and look for what is
missing or stands twice. A power is a product, and a comment is a line of its own with
a C in column 1:",
        cure: "C     TWICE THE LEAST
      K=2*(-3)*(-3)
      END",
    },
    Page {
        sentence: "an expression is too deep",
        meaning: "An expression has at most 128 levels. Each operator, sign, pair of parentheses, list of
subscripts and function is one level above the deepest thing inside of it, so a sum of
129 terms is too deep as well:",
        example: "      K=1+1+1+1+1+1+1+1+1+1+1+1+1+1+1+1+1+1+1+1+1+1+1+1+1+1+1+1+1+1+1+1+
     11+1+1+1+1+1+1+1+1+1+1+1+1+1+1+1+1+1+1+1+1+1+1+1+1+1+1+1+1+1+1+1+1+
     11+1+1+1+1+1+1+1+1+1+1+1+1+1+1+1+1+1+1+1+1+1+1+1+1+1+1+1+1+1+1+1+1+
     11+1+1+1+1+1+1+1+1+1+1+1+1+1+1+1+1+1+1+1+1+1+1+1+1+1+1+1+1+1+1
      END",
        advice: "compute it in two statements:",
        cure: "      K=1+2+3
      K=K+4+5
      END",
    },
    Page {
        sentence: "a statement that is left out for good",
        meaning: "FORTRAN 77 has the statement, and doac doesn't: GO TO, the IF with three labels, REAL,
CHARACTER and other types, CALL and FUNCTION, COMMON, DATA, FORMAT and others are left
out. So is PRINT, WRITE or READ with a unit or a format of its own, and the END DO of a
later FORTRAN:",
        example: "      PRINT 10,K
      END",
        advice: "write PRINT *,K, or READ *,K. SAVE and FORMAT can simply be deleted, an END DO
becomes a CONTINUE with the label that its DO names, the text of a subroutine is put in
the place of its CALL, and what a GO TO skips stands in an IF block:",
        cure: "      IF (K.GT.0) THEN
      PRINT *,K
      END IF
      END",
    },
];
