ghost use Rattle.std.specs.Prelude.{◌≡◌, None, option_map, true, false};
ghost use Rattle.local_job.specs.OutputRequests.{IsAsked, bytes_held};
ghost use Rattle.scan_job.specs.FileOutputs.{GivesBack};

use crate::outlet::Outlet;
use byte_output::{OutputTally, put};
use scan_job::Shelf;
use std::mem;

/// The output of a page, which the shelf is asked for at its first byte.
pub struct PageOut<'a, S: Shelf> {
    pub shelf: &'a mut S,
    pub number: u32,
    pub out: Option<S::Out>,
}

impl<S: Shelf> Outlet for PageOut<'_, S> {
    ghost contents = { λ page. bytes_held (S.stock page.shelf.now) (option_map S.Out.contents page.out) };

    ghost Becomes = { λ first now. (now.shelf.ghost_name ≡ first.shelf.ghost_name) × (now.number ≡ first.number)
        × (first.out ≡ None → IsAsked (S.stock first.shelf.now) (option_map S.Out.contents now.out) now.number (S.stock now.shelf.now)) };

    fn put(&mut self, bytes: &[u8], outputs: &mut OutputTally) -> bool {
        if bytes.is_empty() {
            return true;
        }
        match &mut self.out {
            Some(out) => put(out, bytes, outputs),
            None => match outputs.open(&mut *self.shelf, self.number) {
                Ok(mut out) => {
                    let took = put(&mut out, bytes, outputs);
                    match mem::replace(&mut self.out, Some(out)) {
                        None => took,
                        Some(_) => unreachable!(),
                    }
                }
                Err(_) => false,
            },
        }
    }
}

/// Has the shelf take an output back, if there is one. Says whether it did not refuse.
pub fn give_back<S: Shelf>(shelf: &mut S, out: Option<S::Out>, outputs: &mut OutputTally) -> bool
    ensures none { out ≡ None → result ≡ true }
    ensures back { GivesBack (S.stock shelf.old)
        (option_map S.Out.contents out) result (S.stock shelf.new) }
    ensures failed { result ≡ false → outputs.new.failed ≡ true }
    ensures stays { outputs.old.failed ≡ true → outputs.new.failed ≡ true }
{
    match out {
        Some(out) => outputs.close(shelf, out),
        None => true,
    }
}
