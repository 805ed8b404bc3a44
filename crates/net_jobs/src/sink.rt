//! Where the files of a job go: to one output, or each to an output of its own of a shelf.
ghost use Rattle.std.specs.Prelude.{◌≡◌, ◌<◌, ◌≤◌, true, false, length, option_map, None};
ghost use Rattle.scan_job.specs.FileOutputs.{GivesBack};
ghost use Rattle.net_jobs.specs.Inside.{EndsFile, SinkState, TakesFront, TakesMore};
ghost use Rattle.net_jobs.specs.Inside.SinkState.{OneOutput, OnShelf};

use byte_output::{OutputTally, put};
use scan_job::Shelf;
use std::io::Write;
use std::mem;

/// What is open of where a job's files go, and takes their bytes.
pub(crate) trait FileSink<T> {
    // What is known of it, and of where the files go.
    ghost state: { T → Self → SinkState };

    /// Takes bytes of the file of that number. Says whether it took them all; else it took a proper front of them.
    fn take(&mut self, to: &mut T, number: u32, bytes: &[u8], outputs: &mut OutputTally) -> bool
        requires { 0 < length bytes.now }
        ensures whole { result ≡ true
            → TakesMore (state to.old self.old) (state to.new self.new) number bytes.now }
        ensures front { result ≡ false
            → TakesFront (state to.old self.old) (state to.new self.new) number bytes.now }
        ensures failed { result ≡ false → outputs.new.failed ≡ true }
        ensures again { outputs.new.again ≤ outputs.old.again };

    /// A page's file is whole, and another page is to follow. Says whether its output was kept.
    fn end_file(&mut self, to: &mut T, outputs: &mut OutputTally) -> bool
        ensures ends { EndsFile (state to.old self.old) result (state to.new self.new) }
        ensures failed { result ≡ false → outputs.new.failed ≡ true };
}

/// Of one output, which takes one file and is never given back.
#[derive(Drop)]
pub(crate) struct SingleSink;

impl<W: Write> FileSink<W> for SingleSink {
    ghost state = { λ to _. OneOutput (W.contents to) };

    fn take(&mut self, to: &mut W, _number: u32, bytes: &[u8], outputs: &mut OutputTally) -> bool {
        put(to, bytes, outputs)
    }

    fn end_file(&mut self, _to: &mut W, _outputs: &mut OutputTally) -> bool {
        true
    }
}

/// Of a shelf: the output of the file under way, which is asked for at its first byte.
pub(crate) struct ShelfSink<S: Shelf> {
    pub(crate) under: Option<S::Out>,
}

impl<S: Shelf> FileSink<S> for ShelfSink<S> {
    ghost state = { λ to sink. OnShelf (S.stock to) (option_map S.Out.contents sink.under) };

    fn take(&mut self, to: &mut S, number: u32, bytes: &[u8], outputs: &mut OutputTally) -> bool {
        match &mut self.under {
            Some(out) => put(out, bytes, outputs),
            None => match outputs.open(to, number) {
                Ok(mut out) => {
                    let took = put(&mut out, bytes, outputs);
                    match mem::replace(&mut self.under, Some(out)) {
                        None => took,
                        Some(_) => unreachable!(),
                    }
                }
                Err(_) => false,
            },
        }
    }

    fn end_file(&mut self, to: &mut S, outputs: &mut OutputTally) -> bool {
        put_back(to, self.under.take(), outputs)
    }
}

/// Gives an output back, if there is one. Says whether the shelf kept it.
pub(crate) fn put_back<S: Shelf>(
    shelf: &mut S,
    under: Option<S::Out>,
    outputs: &mut OutputTally,
) -> bool
    ensures back { GivesBack (S.stock shelf.old) (option_map S.Out.contents under) result
        (S.stock shelf.new) }
    ensures failed { result ≡ false → outputs.new.failed ≡ true }
    ensures none { under ≡ None → (result ≡ true) × (shelf.new ≡ shelf.old) }
    ensures kept { result ≡ true → outputs.new.failed ≡ outputs.old.failed }
{
    match under {
        Some(out) => outputs.close(shelf, out),
        None => true,
    }
}
