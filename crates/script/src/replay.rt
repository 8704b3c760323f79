// A recorded answer held against what a script gives.
ghost use Rattle.std.specs.Prelude.{◌≡◌};
ghost use Rattle.lines.specs.Check.{Tells};
ghost use Rattle.steps.specs.Steps.{script_replies};

use agreeing::inner::agree::{agrees, agrees_last};
use steps::{Ran, Room};

// Does a script give exactly this answer?
pub fn replays(script: &[u8], answer: &[u8]) -> bool
    ensures { Tells (answer.now ≡ script_replies script.now) result }
{
    let mut room = Room::new();
    let mut at = 0;
    let mut told = 0;
    // Kept as a loop: a step says where the next begins, and whether there is one.
    loop {
        match room.step(script, at) {
            Ran::Next(wrote, next) => {
                if !agrees(&room.out, wrote, answer, told) {
                    return false;
                }
                told += wrote;
                at = next;
            }
            Ran::Over(wrote) => {
                return agrees(&room.out, wrote, answer, told)
                    && agrees_last(&room.store, &mut room.out, answer, told + wrote);
            }
        }
    }
}
