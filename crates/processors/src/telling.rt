//! Records that are handed on while a run goes on.

ghost use Rattle.std.proofs.Props.{props};
ghost use Rattle.std.specs.Prelude.{◌≡◌, ◌<◌, ◌+◌, ◌^◌, length, true};
ghost use Rattle.processors.specs.Telling.{Waits};

use crate::call::Call;
use record_writer::hand_on;
use std::alloc::Global;
use std::io;
use std::io::Write;
use std::marker::PhantomData;

/// Records that a processor has taken under the lock, and hands on outside it.
#[derive(Drop)]
pub struct Told<C: Call> {
    /// The bytes that are still to be handed on.
    pub pending: Vec<u8>,
    /// How many were handed on before them.
    pub shown: usize,
    /// Whether any are taken.
    pub streams: bool,
    of: PhantomData<C>,
    ghost waits: { Waits C.text pending.items shown } by { Prim.hlevel props },
    ghost few: { shown + length pending.items < 2 ^ 63 } by { Prim.hlevel props },
    ghost may: { streams ≡ true → C.streams ≡ true } by { Prim.hlevel props },
}

impl<C: Call> Told<C> {
    ghost use Rattle.std.specs.Prelude.{◌≡◌, OnErr, OnOk, true};
    ghost use Rattle.record_writer.specs.Written.{Begins};
    ghost use Rattle.processors.specs.Telling.{BreaksOn, ShowsOn};

    /// Nothing yet. Where `streams` is false nothing will ever be taken.
    pub fn new(alloc: Global, streams: bool) -> Told<C>
        requires { streams ≡ true → C.streams ≡ true }
        ensures { result.shown ≡ 0 }
    {
        Told {
            pending: Vec::new(alloc),
            shown: 0,
            streams,
            of: PhantomData,
        }
    }

    /// Takes what has gone out by now. Where memory is refused it is left for the next time.
    pub fn take(&mut self, output: &[u8])
        requires { C.streams ≡ true → Begins output.now C.text }
        ensures { self.new.shown ≡ self.old.shown }
    {
        if !self.streams {
            return;
        }
        let taken = self.shown + self.pending.len();
        if let Some(more) = output.get(taken..) {
            let _ = self.pending.extend_from_slice(more);
        }
    }

    /// Hands on what was taken.
    ///
    /// # Errors
    ///
    /// The writer's error, with a beginning of it written, not all.
    pub fn hand_on<W: Write>(&mut self, out: &mut W) -> io::Result<()>
        ensures ok { OnOk result (ShowsOn C.text self.old.shown self.new.shown
            (W.contents out.old) (W.contents out.new)) }
        ensures err { OnErr result (BreaksOn C.text self.old.shown
            (W.contents out.old) (W.contents out.new)) }
    {
        let more = self.pending.as_slice().len();
        hand_on(&mut self.pending, out)?;
        self.shown += more;
        Ok(())
    }
}
