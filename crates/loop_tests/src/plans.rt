//! Plans of loops, and what is said of them where one thing is changed.

use crate::asked::{Question, Row, Source, are_right, is_right_again};
use crate::changes::Change;
use crate::looks::Places;
use crate::marks::{Mark, Wanted};
use ast::Name;
use dependence::{Reason, Relation, SerialReason};
use std::process::Abort;
use std::test::Fail;

// ---- sources

/// Each element is made of the one two iterations before.
const DISTANCE_TWO: &[u8] = b"      INTEGER A(8)
      DO 10 I=3,8
   10 A(I)=A(I-2)+1
      PRINT *,A(3),A(4),A(5),A(6),A(7),A(8)
      END
";

/// The same, with another constant.
const TWO_ADDED: &[u8] = b"      INTEGER A(8)
      DO 10 I=3,8
   10 A(I)=A(I-2)+2
      PRINT *,A(3),A(4),A(5),A(6),A(7),A(8)
      END
";

const SOURCE_IN_ONE_BRANCH: &[u8] = b"      INTEGER A(0:6)
      DO 10 I=1,6
      IF (MOD(I,2).EQ.0) THEN
      A(I)=A(I-2)+1
      END IF
   10 CONTINUE
      PRINT *,A(2),A(4),A(6)
      END
";

const READ_BEFORE_WRITE: &[u8] = b"      INTEGER A(11)
      DO 10 I=1,11
   10 A(I)=I
      DO 20 I=1,10
   20 A(I)=A(I+1)
      PRINT *,A(1),A(10),A(11)
      END
";

const CARRIED_BETWEEN_ARMS: &[u8] = b"      DO 10 I=1,4
      IF (I.LT.3) THEN
      K=I
      ELSE
      PRINT *,K
      END IF
   10 CONTINUE
      END
";

const EMPTY_AND_NEGATIVE_STEPS: &[u8] = b"      INTEGER A(7)
      DO 10 I=3,1
   10 K=K+1
      PRINT *,I,K
      DO 20 I=1,10,4
   20 CONTINUE
      PRINT *,I
      DO 30 I=5,1,-2
   30 A(I)=A(I+2)+1
      PRINT *,I,A(5),A(3),A(1)
      END
";

const INNER_VARIABLE_NOT_PRIVATE: &[u8] = b"      DO 10 I=1,2
      K=J
      DO 10 J=1,2
   10 CONTINUE
      PRINT *,K,J
      END
";

/// What is read in the inner loop was assigned there in the iteration before of the outer one.
const INNER_LOOP: &[u8] = b"      INTEGER A(0:4)
      DO 20 I=1,4
      DO 10 J=1,2
   10 A(I)=A(I-1)+J
   20 CONTINUE
      END
";

/// Nothing is known of the two elements.
const OWN_COUNTER: &[u8] = b"      INTEGER A(0:4)
      DO 10 I=1,4
      J=J+1
   10 A(J)=A(J-1)
      END
";

// ---- plans

/// The scalar J.
const J: Name = Name {
    letters: [b'J', b' ', b' ', b' ', b' ', b' '],
};

// What stands in the bodies of loops whose one statement waits for itself.

const TWO_BACK: [Mark; 4] = [
    Mark::Await(1, 2),
    Mark::Plain(3),
    Mark::Await(1, 1),
    Mark::Advance(1),
];

const ONE_BACK_ON_LINE_5: [Mark; 4] = [
    Mark::Await(1, 1),
    Mark::Plain(5),
    Mark::Await(1, 1),
    Mark::Advance(1),
];

const ONE_BACK_ON_LINE_3: [Mark; 4] = [
    Mark::Await(1, 1),
    Mark::Plain(3),
    Mark::Await(1, 1),
    Mark::Advance(1),
];

const ONE_BACK_ON_LINE_9: [Mark; 4] = [
    Mark::Await(1, 1),
    Mark::Plain(9),
    Mark::Await(1, 1),
    Mark::Advance(1),
];

// What stands in the bodies of loops whose one statement waits for nothing.

const NO_EVENT_ON_LINE_3: [Mark; 1] = [Mark::Plain(3)];

const NO_EVENT_ON_LINE_4: [Mark; 1] = [Mark::Plain(4)];

const NO_EVENT_ON_LINE_6: [Mark; 1] = [Mark::Plain(6)];

/// An ELSE is made, so that the event is advanced there too.
const ONE_BRANCH: [Mark; 11] = [
    Mark::If,
    Mark::Arm(3),
    Mark::Await(1, 2),
    Mark::Plain(4),
    Mark::Await(1, 1),
    Mark::Advance(1),
    Mark::MadeElse,
    Mark::Await(1, 1),
    Mark::Advance(1),
    Mark::EndIf,
    Mark::Plain(6),
];

/// Each arm advances the other one's event before all else.
const BOTH_ARMS: [Mark; 18] = [
    Mark::If,
    Mark::Arm(2),
    Mark::Await(2, 1),
    Mark::Advance(2),
    Mark::Await(1, 1),
    Mark::Await(2, 1),
    Mark::Plain(3),
    Mark::Await(1, 1),
    Mark::Advance(1),
    Mark::Arm(4),
    Mark::Await(1, 1),
    Mark::Advance(1),
    Mark::Await(1, 1),
    Mark::Plain(5),
    Mark::Await(2, 1),
    Mark::Advance(2),
    Mark::EndIf,
    Mark::Plain(7),
];

/// The event of a source in an inner loop is advanced behind that loop.
const BEHIND_INNER_LOOP: [Mark; 7] = [
    Mark::Loop(3),
    Mark::Await(1, 1),
    Mark::Plain(4),
    Mark::EndLoop,
    Mark::Await(1, 1),
    Mark::Advance(1),
    Mark::Plain(5),
];

static PLANNED: [Row<'static>; 12] = [
    // plans of one statement
    (
        Source::Whole(DISTANCE_TWO),
        1,
        Question::Planned(Wanted::Body(&[], &TWO_BACK)),
    ),
    (
        Source::Whole(READ_BEFORE_WRITE),
        2,
        Question::Planned(Wanted::Body(&[], &ONE_BACK_ON_LINE_5)),
    ),
    // plans without events
    (
        Source::Whole(READ_BEFORE_WRITE),
        1,
        Question::Planned(Wanted::Body(&[], &NO_EVENT_ON_LINE_3)),
    ),
    (
        Source::Whole(EMPTY_AND_NEGATIVE_STEPS),
        2,
        Question::Planned(Wanted::Body(&[], &NO_EVENT_ON_LINE_6)),
    ),
    // plans of loops with steps
    // The first loop is never entered, the step of the other one is below 0.
    (
        Source::Whole(EMPTY_AND_NEGATIVE_STEPS),
        1,
        Question::Planned(Wanted::Body(&[], &ONE_BACK_ON_LINE_3)),
    ),
    (
        Source::Whole(EMPTY_AND_NEGATIVE_STEPS),
        3,
        Question::Planned(Wanted::Body(&[], &ONE_BACK_ON_LINE_9)),
    ),
    // plans of arms
    (
        Source::Whole(SOURCE_IN_ONE_BRANCH),
        1,
        Question::Planned(Wanted::Body(&[], &ONE_BRANCH)),
    ),
    (
        Source::Whole(CARRIED_BETWEEN_ARMS),
        1,
        Question::Planned(Wanted::Body(&[], &BOTH_ARMS)),
    ),
    // plans of nested loops
    (
        Source::Whole(INNER_VARIABLE_NOT_PRIVATE),
        1,
        Question::Planned(Wanted::Serial(SerialReason::SharedVariable)),
    ),
    (
        Source::Whole(INNER_VARIABLE_NOT_PRIVATE),
        2,
        Question::Planned(Wanted::Body(&[], &NO_EVENT_ON_LINE_4)),
    ),
    (
        Source::Whole(INNER_LOOP),
        1,
        Question::Planned(Wanted::Body(&[J], &BEHIND_INNER_LOOP)),
    ),
    (
        Source::Whole(INNER_LOOP),
        2,
        Question::Planned(Wanted::Serial(SerialReason::Inside)),
    ),
];

#[test]
fn plans_of_loops(rt: HostRuntime) -> Result<(), Fail> {
    are_right(&rt, &PLANNED)
}

#[test]
fn want_of_memory_in_plans(rt: HostRuntime) -> Result<(), Fail> {
    let question = Question::Planned(Wanted::Body(&[], &ONE_BRANCH));
    is_right_again(&rt, (Source::Whole(SOURCE_IN_ONE_BRANCH), 1, question))
}

// ---- changes

// The refusals by their numbers.

const ACCEPTED: Option<u8> = None;

const EARLY: Option<u8> = Some(70);

const DISORDER: Option<u8> = Some(71);

const BEHIND: Option<u8> = Some(72);

const UNAWAITED: Option<u8> = Some(73);

const UNTRUE: Option<u8> = Some(74);

const OTHER_BODY: Option<u8> = Some(75);

const UNFIT: Option<u8> = Some(76);

// The places of a body whose one statement waits for itself.

const SINK_AWAIT: usize = 0;

const STATEMENT: usize = 1;

const ORDER_AWAIT: usize = 2;

const ADVANCE: usize = 3;

/// The place of the IF in the body of the loop whose source stands in one branch.
const BLOCK: usize = 0;

/// The greatest event that a plan may have.
const MOST_EVENTS: usize = 64;

/// What is said of two constants.
const NEVER: Relation = Relation::Apart(1, Reason::Constant);

/// The assigned one of two elements, and later the one that is read.
const WRITE_THEN_READ: Places = (1, 0);

/// The one of two elements that is read, and later the assigned one.
const READ_THEN_WRITE: Places = (0, 1);

static CHANGED: [Row<'static>; 26] = [
    // plans with an await changed
    // The sink's await is taken out, the order await is kept.
    (
        Source::Whole(READ_BEFORE_WRITE),
        2,
        Question::Changed(&[Change::TakenOut(SINK_AWAIT)], UNAWAITED),
    ),
    // The order await is taken out.
    (
        Source::Whole(DISTANCE_TWO),
        1,
        Question::Changed(&[Change::TakenOut(ORDER_AWAIT)], DISORDER),
    ),
    (
        Source::Whole(DISTANCE_TWO),
        1,
        Question::Changed(&[Change::Await(ORDER_AWAIT, 1, 0)], UNFIT),
    ),
    // plans with an advance changed
    (
        Source::Whole(SOURCE_IN_ONE_BRANCH),
        1,
        Question::Changed(&[Change::NoMadeElse(BLOCK)], DISORDER),
    ),
    // The statement is moved behind the advance and its order await.
    (
        Source::Whole(DISTANCE_TWO),
        1,
        Question::Changed(&[Change::Moved(STATEMENT, ADVANCE)], BEHIND),
    ),
    (
        Source::Whole(DISTANCE_TWO),
        1,
        Question::Changed(
            &[
                Change::Await(SINK_AWAIT, MOST_EVENTS + 1, 2),
                Change::Await(ORDER_AWAIT, MOST_EVENTS + 1, 1),
                Change::Advance(ADVANCE, MOST_EVENTS + 1),
            ],
            UNFIT,
        ),
    ),
    // plans with numbers at their bounds
    (
        Source::Whole(DISTANCE_TWO),
        1,
        Question::Changed(&[Change::Await(SINK_AWAIT, usize::MAX, u128::MAX)], UNFIT),
    ),
    (
        Source::Whole(DISTANCE_TWO),
        1,
        Question::Changed(&[Change::Advance(ADVANCE, usize::MAX)], UNFIT),
    ),
    // The greatest number is a distance.
    (
        Source::Whole(DISTANCE_TWO),
        1,
        Question::Changed(
            &[
                Change::Await(SINK_AWAIT, MOST_EVENTS, 2),
                Change::Await(ORDER_AWAIT, MOST_EVENTS, 1),
                Change::Advance(ADVANCE, MOST_EVENTS),
            ],
            ACCEPTED,
        ),
    ),
    (
        Source::Whole(DISTANCE_TWO),
        1,
        Question::Changed(&[Change::Await(SINK_AWAIT, 1, u128::MAX)], UNAWAITED),
    ),
    (
        Source::Whole(DISTANCE_TWO),
        1,
        Question::Changed(&[Change::Await(ORDER_AWAIT, 1, u128::MAX)], DISORDER),
    ),
    // plans with a scalar or the body changed
    (
        Source::Whole(CARRIED_BETWEEN_ARMS),
        1,
        Question::Changed(&[Change::PrivateK], EARLY),
    ),
    // K is given twice, which is told before that it is used early.
    (
        Source::Whole(CARRIED_BETWEEN_ARMS),
        1,
        Question::Changed(&[Change::PrivateK, Change::PrivateK], UNFIT),
    ),
    (
        Source::Whole(SOURCE_IN_ONE_BRANCH),
        1,
        Question::Changed(&[Change::MoreInMadeElse(BLOCK)], OTHER_BODY),
    ),
    (
        Source::Whole(DISTANCE_TWO),
        1,
        Question::Changed(&[Change::NoBody], OTHER_BODY),
    ),
    // plans with a claim changed
    (
        Source::Whole(EMPTY_AND_NEGATIVE_STEPS),
        3,
        Question::Changed(
            &[
                Change::Claim(WRITE_THEN_READ, Relation::Distance(1, 2)),
                Change::Await(SINK_AWAIT, 1, 2),
            ],
            UNTRUE,
        ),
    ),
    (
        Source::Whole(OWN_COUNTER),
        1,
        Question::Changed(&[Change::Claim(WRITE_THEN_READ, NEVER)], UNTRUE),
    ),
    (
        Source::Whole(OWN_COUNTER),
        1,
        Question::Changed(&[Change::Claim(READ_THEN_WRITE, NEVER)], UNTRUE),
    ),
    (
        Source::Whole(OWN_COUNTER),
        1,
        Question::Changed(&[], ACCEPTED),
    ),
    (
        Source::Whole(DISTANCE_TWO),
        1,
        Question::Changed(&[Change::NoClaims], UNTRUE),
    ),
    // plans with two claims of a pair
    // The first of two claims of a pair counts.
    (
        Source::Whole(DISTANCE_TWO),
        1,
        Question::Changed(&[Change::ClaimBehind(WRITE_THEN_READ, NEVER)], ACCEPTED),
    ),
    (
        Source::Whole(DISTANCE_TWO),
        1,
        Question::Changed(&[Change::ClaimBefore(WRITE_THEN_READ, NEVER)], UNTRUE),
    ),
    // plans with the body of another loop
    (
        Source::Whole(DISTANCE_TWO),
        1,
        Question::Changed(&[Change::BodyOf(TWO_ADDED, 1)], OTHER_BODY),
    ),
    (
        Source::Whole(DISTANCE_TWO),
        1,
        Question::Changed(&[Change::BodyOf(READ_BEFORE_WRITE, 2)], OTHER_BODY),
    ),
    (
        Source::Whole(DISTANCE_TWO),
        1,
        Question::Changed(&[Change::BodyOf(EMPTY_AND_NEGATIVE_STEPS, 2)], OTHER_BODY),
    ),
    // A loop whose iterations might overlap may be serial too.
    (
        Source::Whole(DISTANCE_TWO),
        1,
        Question::Changed(&[Change::Serial(SerialReason::NoStep)], ACCEPTED),
    ),
];

#[test]
fn changed_plans(rt: HostRuntime) -> Result<(), Fail> {
    are_right(&rt, &CHANGED)
}

#[test]
fn want_of_memory_in_the_check(rt: HostRuntime) -> Result<(), Fail> {
    let question = Question::Changed(&[], ACCEPTED);
    is_right_again(&rt, (Source::Whole(SOURCE_IN_ONE_BRANCH), 1, question))
}
