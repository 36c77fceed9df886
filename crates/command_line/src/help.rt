//! What stands at the end of each command's help: its statuses, and an example.

pub const CHECK: &str = "\
Status:
  0  the source is accepted
  1  it is refused
  3  the command line is wrong
  4  a file can't be read, or the answer can't be written
  5  there is no memory

Example:
  doac check examples/sieve.f";

pub const LIST: &str = "\
What a line says of a loop:
  DOACROSS EVENTS 0  no iteration waits for another; others call this DOALL
  DOACROSS EVENTS n  iterations overlap, and wait for n places of earlier ones.
                     AWAIT e d BEFORE LINE l: for event e of the iteration d back.
                     ADVANCE e AFTER LINE l: there event e is told. Where d is 1
                     and all work stands between the two, the loop is a chain:
                     its iterations go one after another
  SERIAL n           iterations go one after another, for the reason n

Status:
  0  each loop is listed
  1  the source is refused
  3  the command line is wrong
  4  a file can't be read, or the answer can't be written
  5  there is no memory

Example:
  doac list --why examples/recurrence.f";

pub const CODE: &str = "\
Status:
  0  the code is shown
  1  the source is refused
  3  the command line is wrong
  4  a file can't be read, or the answer can't be written
  5  there is no memory

Example:
  doac code examples/recurrence.f";

pub const SEQ: &str = "\
The records of PRINT go to standard output, and behind them a line FAULT .. or
STOPPED .. where the run comes to a fault or a STOP. Each record begins with a
blank, such a line doesn't. A script tells a fault by the status. Where F and
INPUT are both -, the source takes all of standard input, and the input is empty.

Status:
  0  the run came to END or to a STOP
  1  the source is refused
  2  the run came to a fault
  3  the command line is wrong
  4  a file can't be read, or the answer can't be written
  5  there is no memory

Example:
  doac seq examples/average.f examples/average.in --store";

pub const RUN: &str = "\
Status:
  0  the run came to END or to a STOP
  1  the source is refused
  2  the run came to a fault
  3  the command line is wrong, a number is out of its range, or standard output
     goes to OUT
  4  a file can't be read, or the answer or OUT can't be written
  5  there is no memory, a thread can't be started, or the run can't go on

At a fault of a subscript or of the input the source is then run once more, as
by seq, to say which subscript or which record it is.

With --schedule or --tally the run keeps its schedule in memory until it has
ended, and shows nothing before.

Example:
  doac run examples/overlap.f -p 4 -s 8 --schedule overlap.schedule";

pub const MODEL: &str = "\
In each unit of time each processor makes one step, if it has any. A line shows
the steps of the whole run, the units that they took, the one by the other, and
how many of a hundred turns were spent waiting; behind it stands one for each
loop whose iterations were run at once. What the program prints isn't shown. It
is the same each time.

With --schedule the schedule is kept in memory until the run is over. That of a
run that was left leads to where it was left.

Status:
  0  the run came to END or to a STOP, or was left after --most steps
  1  the source is refused
  2  the run came to a fault
  3  the command line is wrong, a number is out of its range, or standard output
     goes to OUT
  4  a file can't be read, or the answer or OUT can't be written
  5  there is no memory

Example:
  doac model examples/overlap.f -p 4 -s 8";

pub const REPLAY: &str = "\
Status:
  0  the run came to END or to a STOP
  1  the source is refused
  2  the run came to a fault
  3  the command line is wrong
  4  a file can't be read, or the answer can't be written
  5  there is no memory
  6  the schedule is refused

At a fault of a subscript or of the input the source is then run once more, as
by seq, to say which subscript or which record it is.

With --states each line of the schedule has a block, written at once: the line, the
records that went out, the counts, what each processor holds, and who is parked.
LINE and PLACE say where in the source and in the code somebody stands.

Examples:
  doac replay examples/overlap.f /dev/null examples/overlap.schedule
  doac replay examples/turns.f /dev/null examples/turns.schedule --states";

pub const UPGRADE: &str = "\
Status:
  0  OUT has the schedule
  1  the source is refused
  3  the command line is wrong, or standard output goes to OUT
  4  a file can't be read, or OUT can't be written
  5  there is no memory
  6  the schedule is refused

Example:
  doac upgrade examples/overlap.f /dev/null examples/overlap.schedule named.schedule";

pub const DRAW: &str = "\
Status:
  0  OUT has the picture
  1  the source is refused
  3  the command line is wrong, there is no such loop, standard output goes to OUT,
     or the picture would have more than 20,000 arrows
  4  a file can't be read, or OUT can't be written
  5  there is no memory

Example:
  doac draw examples/recurrence.f recurrence.svg --iterations 6";

pub const TIMELINE: &str = "\
Status:
  0  OUT has the picture
  1  the source is refused
  3  the command line is wrong, or standard output goes to OUT
  4  a file can't be read, or OUT can't be written
  5  there is no memory
  6  the schedule is refused

Example:
  doac timeline examples/overlap.f /dev/null examples/overlap.schedule overlap.svg";

pub const EXPLAIN: &str = "\
Status:
  0  the number is explained, or all are listed
  3  the command line is wrong, or the number has no meaning
  4  the answer can't be written
  5  there is no memory

Examples:
  doac explain 25
  doac explain serial 3";
