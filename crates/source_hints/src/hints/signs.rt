//! The signs that hints go by: what a statement begins with and holds, without blanks and in
//! capitals, and what to say of it. In a row of a table stand signs with blanks between them, and
//! behind `=>` what is said of each. A sign is what a statement begins with, `..` and what it
//! holds; either may be empty, and the second is left out with its points.

use bstr::ByteSlice;

/// What is said of the first sign in a table that a text has.
pub fn first_of(table: &'static str, text: &[u8]) -> Option<&'static str> {
    table.lines().find_map(|row| {
        let (signs, hint) = row.split_once(" => ")?;
        signs.split(' ').any(|sign| has(text, sign)).then_some(hint)
    })
}

fn has(text: &[u8], sign: &str) -> bool {
    let (front, held) = sign.split_once("..").unwrap_or((sign, ""));
    text.starts_with(front.as_bytes()) && text.contains_str(held.as_bytes())
}

/// What is said of the sign that stands first in a text; of two at one place, of the first row.
pub fn earliest_of(table: &'static str, text: &[u8]) -> Option<&'static str> {
    let mut found = None;
    let mut before = text.len();
    for row in table.lines() {
        let (sign, hint) = row.split_once(" => ").unwrap_or((row, ""));
        let place = text.find(sign.as_bytes()).unwrap_or(before);
        if place < before {
            before = place;
            found = Some(hint);
        }
    }
    found
}

/// What stands in a line that is refused by rule 1.
pub const CHARACTERS: &str = "\
..\0 => a byte of zero stands in the line; this is no text file, or one in UTF-16
..\x1A => a Ctrl-Z stands in the line; take it out
..\x0C => a form feed stands in the line; take it out
..\t => a tab stands in the line; put blanks in its place
..\u{FEFF} => the file begins with a byte-order mark; save it without one
..\u{2212} => the minus is not the one of the keyboard
..\u{200B} => a blank that has no width stands in the line; take it out
..\u{202F} => a narrow blank stands in the line; put a blank in its place
..\u{A0} => a no-break space stands in the line; put a blank in its place
..\r => a CR stands in the line; a line ends in LF or in CR LF
";

/// What is said of a DO with a condition.
pub const WHILE: &str = "there is no DO WHILE; give a DO a last value, and write an IF in it";

/// Signs of other languages, in a statement that is none or is not well formed; it may hold each.
pub const FOREIGN: &str = "\
** => there is no power; write a product
!= => write .NE. in the place of '!='
/= => write .NE. in the place of '/='
:: => a declaration has no '::', as in INTEGER K
; => a line holds one statement
_ => a name has letters and digits alone
== => write .EQ. in the place of '=='
<> => write .NE. in the place of '<>'
< => write .LT. or .LE. in the place of '<' or '<='
> => write .GT. or .GE. in the place of '>' or '>='
[ => subscripts stand in parentheses
^ => there is no power; write a product
% => the remainder is MOD, as in MOD(5,2)
+= => write it out, as in K=K+1
-= => write it out, as in K=K-1
*= => write it out, as in K=K*2
// => texts are not joined; print one behind another
$ => a name has letters and digits alone
&& => write .AND. in the place of '&&'
|| => write .OR. in the place of '||'
& => a statement goes on in a line with a sign in column 6
";

/// What a statement begins with and holds that is none or is not well formed.
pub const BEGINNINGS: &str = "\
INTEGER( => INTEGER has 64 bits as it is; write INTEGER alone
TYPE* => write PRINT *, and what is printed
ACCEPT* => write READ *, and what is read
WHILE( => there is no DO WHILE; give a DO a last value, and write an IF in it
CASE ENDSELECT => of a later FORTRAN; write IF and ELSE IF
..,'' => a text has a character at least
READ*, READ(*,*) => READ takes variables and elements of arrays
SELECTCASE => of a later FORTRAN; write IF and ELSE IF
EXIT CYCLE => of a later FORTRAN; write an IF block around what is left of the loop
INCLUDE => of a later FORTRAN; a source is one file
";

/// What a statement begins with and holds whose name is too long.
pub const LENGTHS: &str = "\
INTEGERFUNCTION => there are no functions but MOD, ABS, IABS, MAX, MAX0, MIN and MIN0
INTEGER..= => a declaration gives no value; an assignment does, or a PARAMETER statement
";

/// What a statement begins with that is left out for good.
pub const LEFT_OUT: &str = "\
CALLEXIT => write STOP
READ(..END= => there is no END=; let the first record say how many there are
SAVE INTRINSIC => leave it out
EXTERNAL => leave it out: there are no functions but MOD, ABS, IABS, MAX, MAX0, MIN and MIN0
EQUIVALENCE => each name has elements of its own; use one name for both
OPEN CLOSE => READ takes the records of the one input, and PRINT writes the one output
INQUIRE REWIND => READ takes the records of the one input, and PRINT writes the one output
BACKSPACE ENDFILE => READ takes the records of the one input, and PRINT writes the one output
ASSIGN GOTO => there are no jumps; write an IF block or a DO
PAUSE => leave it out, or write STOP
BLOCKDATA DATA => all variables are 0 at first; assign other values
INTEGER* => INTEGER has 64 bits as it is; write INTEGER alone
REAL DOUBLE COMPLEX LOGICAL CHARACTER => all variables are INTEGER
ENDDO => a loop ends at the label of its DO, as in 10 CONTINUE
DOWHILE => there is no DO WHILE; give a DO a last value, and write an IF in it
IMPLICIT => leave it out: names that begin with I to N are INTEGER, others are declared
CALL => there are no subroutines; write the statements in its place
RETURN => there are no subroutines to return from; STOP ends the program
SUBROUTINE => there are no subroutines; a source is one program
FUNCTION => there are no functions but MOD, ABS, IABS, MAX, MAX0, MIN and MIN0
COMMON => one program has all variables; declare them alone
FORMAT => values are printed in one form, by PRINT * or WRITE(*,*)
WRITE => write WRITE(*,*)
READ => write READ *, or READ(*,*)
PRINT => write PRINT *, and a comma behind it
";
