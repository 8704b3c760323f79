// What a script works in.
ghost use Rattle.std.specs.Prelude.{◌≡◌, ◌≤◌, length};
ghost use Rattle.steps.specs.Answers.{behind, laid_out, wrote_of};
ghost use Rattle.steps.specs.Lent.{lent_of};
ghost use Rattle.steps.specs.Steps.{fresh, step_of};

use crate::begin::start;
use crate::run::{Ran, run_step};
use layout::{SCRATCH_WORDS, STORE_WORDS};
use lines::LINE_BYTES;
use replies::inner::stops::STOP_WORDS;
use setcheck::inner::places::SET_WORDS;

// The words that a script is lent, and the bytes that a step's reply is laid in.
#[derive(Drop)]
pub struct Room {
    pub store: [u32; STORE_WORDS],
    pub set: [u32; SET_WORDS],
    pub stops: [u32; STOP_WORDS],
    pub scratch: [u32; SCRATCH_WORDS],
    pub out: [u8; LINE_BYTES],
}

impl Room {
    // The words that a script starts from.
    pub fn new() -> Room
        ensures { lent_of result ≡ fresh }
    {
        let mut room = Room {
            store: [0; STORE_WORDS],
            set: [0; SET_WORDS],
            stops: [0; STOP_WORDS],
            scratch: [0; SCRATCH_WORDS],
            out: [0; LINE_BYTES],
        };
        start(
            &mut room.store,
            &mut room.set,
            &mut room.stops,
            &mut room.scratch,
        );
        room
    }

    // Runs the record at a place of a script. The reply stands at the start of `out`.
    pub fn step(&mut self, bytes: &[u8], at: usize) -> Ran
        ensures as_the_step { behind result self.new.out (lent_of self.new)
            ≡ laid_out self.old.out (step_of bytes.now at (lent_of self.old)) }
        ensures result_in_bounds { wrote_of result ≤ length self.new.out }
    {
        run_step(
            bytes,
            at,
            &mut self.store,
            &mut self.set,
            &mut self.stops,
            &mut self.scratch,
            &mut self.out,
        )
    }
}
