//! The rules for lines, each with a source that breaks it and one that is cured.

use crate::explain::Page;

/// The pages in the order of their numbers.
pub static PAGES: [Page; 8] = [
    Page {
        sentence: "a character that may not stand in columns 1 to 72",
        meaning: "Columns 1 to 72 of a statement's line hold letters, digits, blanks and the other
characters of a keyboard. A tab is none of them, and neither is an accented letter, a
minus or a quotation mark of a word processor, the mark that some editors put at the
beginning of a file, or the CR of a line that doesn't end in CR LF. A comment line may
hold anything, and so may the columns from 73 on. Here a tab stands before K:",
        example: "\tK=1
      END",
        advice: "put blanks in the place of the tab. A statement begins in column 7, so six
blanks stand before it:",
        cure: "      K=1
      END",
    },
    Page {
        sentence: "columns 1 to 5 hold something that is no label",
        meaning: "A line that begins a statement has its label, if it has one, in columns 1 to 5: one
to five digits that are not all zero. Everything else belongs in columns 7 to 72. A
common cause is a statement that begins too far to the left:",
        example: "K=1
      END",
        advice: "put six blanks before the statement. If the line is meant as a comment,
put a C or a * into column 1:",
        cure: "C     SETS K
      K=1
      END",
    },
    Page {
        sentence: "a continuation line that continues nothing",
        meaning: "A line with a character other than a blank or 0 in column 6 goes on with the statement
above it, and above this line there is none. A common cause is a statement that begins
one column too far to the left, here in column 6:",
        example: "     K=1
      END",
        advice: "write the statement from column 7 on, or put the line below the one that it
continues:",
        cure: "      K=1
     1+1
      END",
    },
    Page {
        sentence: "a statement with too many lines",
        meaning: "A statement has its first line and at most 19 continuation lines. The line of the
refusal is the twentieth:",
        example: "      K=1
     1+1
     1+1
     1+1
     1+1
     1+1
     1+1
     1+1
     1+1
     1+1
     1+1
     1+1
     1+1
     1+1
     1+1
     1+1
     1+1
     1+1
     1+1
     1+1
     1+1
      END",
        advice: "compute the first part in a statement of its own, and go on from its value:",
        cure: "      K=1+1+1+1+1+1+1+1+1+1
      K=K+1+1+1+1+1+1+1+1+1+1+1
      END",
    },
    Page {
        sentence: "something stands before a continuation line",
        meaning: "A line with a character other than a blank or 0 in column 6 is a continuation line, and
its columns 1 to 5 are blank. A statement that begins too far to the left often looks
like one, since one of its letters stands in column 6:",
        example: "      K=1
PRINT*,K
      END",
        advice: "begin the statement in column 7. A label belongs to the first line of its
statement:",
        cure: "      K=1
      PRINT *,K
      END",
    },
    Page {
        sentence: "the source is too long",
        meaning: "A source has at most 65,535 lines, comments counted. The line of the refusal is the
first one too many.",
        example: "",
        advice: "take out comment lines, or cut the program into two.",
        cure: "",
    },
    Page {
        sentence: "the source has no END",
        meaning: "A program ends with a line that holds END alone, in columns 7 to 72. The line of the
refusal is the number of lines that the source has, 0 for an empty file. The last line
here has more than END:",
        example: "      PRINT *,1
      END PROGRAM",
        advice: "write END as the last line, with six blanks before it and nothing behind it
up to column 72:",
        cure: "      PRINT *,1
      END",
    },
    Page {
        sentence: "a line after END",
        meaning: "END ends the program, and only comment lines and blank lines may follow it:",
        example: "      END
      PRINT *,1",
        advice: "move the line before END, or take it out. A file holds one main program, and no
subroutines or functions:",
        cure: "      PRINT *,1
      END",
    },
];
