//! The desk at which processors take their turns.

use crate::board::{Board, Next};
use crate::call::Call;
use crate::driven::Driven;
use crate::telling::Told;
use crate::work::Own;
use std::hint::spin_loop;
use std::sync::{Condvar, Mutex, MutexGuard, Wait};

/// How often it is looked whether the lock is free before a processor sleeps until it is. Most
/// turns are shorter than that, and to be woken takes longer.
const MOST_LOOKS: u32 = 1000;

/// A run under a lock, at which each processor takes its turns. One who finds nothing to do sleeps
/// there.
#[derive(Drop)]
pub struct Desk<C: Call, D: Driven<C> + Drop> {
    board: Mutex<Board<C, D>>,
    changed: Condvar,
}

impl<C: Call, D: Driven<C> + Drop> Desk<C, D> {
    ghost use Rattle.std.specs.Prelude.{◌≡◌};

    /// A desk at which nobody stands or sleeps yet.
    pub fn new(board: Board<C, D>) -> Desk<C, D> {
        Desk {
            board: Mutex::new(board),
            changed: Condvar::new(),
        }
    }

    /// The lock is taken. Where it isn't free it soon is, so it is looked for a while before the
    /// processor sleeps.
    fn take<R: Wait>(&self, rt: &R) -> MutexGuard<'_, Board<C, D>> {
        for _ in 0..MOST_LOOKS {
            if let Some(board) = self.board.try_lock() {
                return board;
            }
            spin_loop();
        }
        self.board.lock(rt)
    }

    /// A turn of processor `q`, which hands in what it did outside the lock. It sleeps until there
    /// is something to do. Records that wait are told to it then, where it hands them on.
    pub fn turn<R: Wait>(&self, rt: &R, q: usize, own: &mut Own<'_, C>, told: &mut Told<C>) -> Next
        ensures { told.new.shown ≡ told.old.shown }
    {
        let mut board = self.take(rt);
        let mut next = board.turn(q, own);
        for _ in rt.forever() {
            if !matches!(next, Next::Wait) || board.has_news_for(told) {
                break;
            }
            board.fall_asleep(q);
            board = self.changed.wait(rt, board);
            board.wake_up(q);
            next = board.turn(q, own);
        }
        board.tell(told);
        let comes_back = next == Next::Again && told.pending.is_empty();
        self.leave(board, comes_back);
        next
    }

    /// The lock is given back. Who leaves the desk wakes another where that one could do something,
    /// by whether it comes back at once, and all when the run is over, or where the one who hands
    /// records on is to be woken.
    fn leave(&self, mut board: MutexGuard<'_, Board<C, D>>, comes_back: bool) {
        let wakes_all = board.is_over() || board.calls_teller();
        let wants_another = board.wants_another(comes_back);
        drop(board);
        if wakes_all {
            self.changed.notify_all();
        } else if wants_another {
            self.changed.notify_one();
        }
    }

    /// The run is given up, and all who sleep are woken to leave.
    pub fn give_up<R: Wait>(&self, rt: &R) {
        self.board.lock(rt).give_up();
        self.changed.notify_all();
    }

    /// What lay under the lock.
    pub fn into_board(self) -> Board<C, D> {
        let Desk { board, .. } = self;
        board.into_inner()
    }
}
