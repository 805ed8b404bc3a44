use std::alloc::{AllocError, Global};
use std::cell::Cell;
use std::rc::Rc;
use std::time::{Clock, Duration};

/// So many turns in a row in which nothing moved come before a nap.
const PATIENCE: usize = 64;

const FIRST_NAP_MICROS: u64 = 50;

/// Each nap is twice as long as the one before it, up to this.
const LONGEST_NAP_MICROS: u64 = 5000;

/// How long nothing has moved. The listeners and all their connections share it.
#[derive(Drop)]
pub struct Pace<R: Drop> {
    rt: R,
    /// How many calls in a row moved nothing, since the last nap.
    idle: Cell<usize>,
    /// The next nap.
    nap_micros: Cell<u64>,
    /// Whether something moved since that was asked last.
    has_moved: Cell<bool>,
}

impl<R: Drop> Pace<R> {
    /// The pace of a net that was just made, shared by all its connections.
    pub fn new(alloc: Global, rt: R) -> Result<Rc<Pace<R>>, AllocError> {
        let pace = Pace {
            rt,
            idle: Cell::new(0),
            nap_micros: Cell::new(FIRST_NAP_MICROS),
            has_moved: Cell::new(false),
        };
        Ok(Rc::new(alloc, pace)?)
    }

    /// Something moved.
    pub fn quicken(&self) {
        self.nap_micros.set(FIRST_NAP_MICROS);
        self.idle.set(0);
        self.has_moved.set(true);
    }

    /// Whether something moved since this was asked last.
    pub fn has_moved(&self) -> bool {
        self.has_moved.replace(false)
    }
}

impl<R: Clock + Drop> Pace<R> {
    /// A call moved nothing, one of about so many in a turn.
    pub fn rest(&self, in_a_turn: usize) {
        let micros = self.nap_micros.get();
        let turns = if micros > FIRST_NAP_MICROS {
            1
        } else {
            PATIENCE
        };
        let idle = self.idle.get().saturating_add(1);
        if idle < turns.saturating_mul(in_a_turn) {
            self.idle.set(idle);
            return;
        }
        std::thread::sleep(&self.rt, Duration::from_micros(micros));
        self.idle.set(0);
        self.nap_micros
            .set(micros.saturating_mul(2).min(LONGEST_NAP_MICROS));
    }
}
