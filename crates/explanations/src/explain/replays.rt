//! Refusals of schedules, each with a schedule of the program of END alone that has it and one that
//! is cured; why a run in threads comes to nothing; and that of code that is too long.

use crate::explain::Page;

/// The schedule of the program of END alone, on one processor.
const WHOLE: &str = "DOACROSS SCHEDULE 2
1 1
0 M
0 0";

/// Of schedules, in the order of their numbers.
pub static SCHEDULES: [Page; 6] = [
    Page {
        sentence: "the schedule does not begin as one does",
        meaning: "A schedule's first line is DOACROSS SCHEDULE 1 or DOACROSS SCHEDULE 2. The second holds
the number of processors, 1 to 64, and how many iterations may be open, 1 to 256, with one
blank between them. Each line ends in LF:",
        example: "DOACROSS SCHEDULE 2
0 1",
        advice: "give the file that a run wrote, unchanged:",
        cure: WHOLE,
    },
    Page {
        sentence: "the line is no entry of a schedule",
        meaning: "An entry is a processor's number, one blank, and what it does: a number from 1 to 1024 for
so many local instructions, 0 for one shared step, and in the second form M, T or I and an
iteration's number for what it takes up. Numbers are written without a zero before them,
and each line ends in LF:",
        example: "DOACROSS SCHEDULE 2
1 1
0 M
0  0",
        advice: "write the line in this form:",
        cure: WHOLE,
    },
    Page {
        sentence: "there is no such processor",
        meaning: "Processors are numbered from 0 on, below the first number of the second line:",
        example: "DOACROSS SCHEDULE 2
1 1
0 M
1 0",
        advice: "give the entry to a processor that is there, or let there be more of them:",
        cure: WHOLE,
    },
    Page {
        sentence: "the processor can't do this now",
        meaning: "The entries before the line can be followed, and this one can't: the processor holds
nothing, or fewer local instructions stand next than the entry has, or one stands next
where the entry is a shared step, or what it takes up isn't ready. Here main has no local
instruction:",
        example: "DOACROSS SCHEDULE 2
1 1
0 M
0 1",
        advice: "give the source and the input with which the schedule was made:",
        cure: WHOLE,
    },
    Page {
        sentence: "the run has not ended with the schedule",
        meaning: "All entries can be followed, and then the run has not ended:",
        example: "DOACROSS SCHEDULE 2
1 1
0 M",
        advice: "see whether the end of the file is missing:",
        cure: WHOLE,
    },
    Page {
        sentence: "an entry stands behind the end of the run",
        meaning: "With the entries before the line the run has ended:",
        example: "DOACROSS SCHEDULE 2
1 1
0 M
0 0
0 0",
        advice: "take the line and those behind it away:",
        cure: WHOLE,
    },
];

/// Of runs, in the order of their numbers.
pub static RUNS: [Page; 3] = [
    Page {
        sentence: "a run has 1 to 64 processors and 1 to 256 open iterations",
        meaning: "The number behind -p or -s is out of its range. Nothing is shown, and the status is 3.",
        example: "",
        advice: "give -p a number from 1 to 64, and -s one from 1 to 256.",
        cure: "",
    },
    Page {
        sentence: "a thread could not be started",
        meaning: "A run wants one thread less than it has processors, and the system refused one. Nothing is
shown, and the status is 5.",
        example: "",
        advice: "give -p a smaller number, or let the system have more threads ('ulimit -u').",
        cure: "",
    },
    Page {
        sentence: "the run can't go on, and has not ended",
        meaning: "No processor has anything to do, and the run hasn't ended. The code that doac makes of a source
never comes to that, which is proved. Nothing is shown, and the status is 5.",
        example: "",
        advice: "report it, with the source, the input, and the numbers behind -p and -s.",
        cure: "",
    },
];

/// Of code.
pub static CODE: [Page; 1] = [Page {
    sentence: "the program's code would be too long",
    meaning: "The code of a program has at most 1,048,576 instructions. Only commands that compile it
refuse a program for this; 'doac seq' runs it all the same. The refusal is of no line: LINE 0.",
    example: "",
    advice: "put what is written many times into a loop.",
    cure: "",
}];
