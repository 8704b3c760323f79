// The verdict on the configs of a sound set.
ghost use Rattle.std.specs.Prelude.{◌≡◌, true, eqb};
ghost use Rattle.groups.specs.SetsLists.{any};
ghost use Rattle.groups.specs.Answers.{stopped, verdict};
ghost use Rattle.grouping.specs.Clash.{configs_of};
ghost use Rattle.grouping.specs.Led.{Lent};
ghost use Rattle.deciding.specs.Alone.{Counted};
ghost use Rattle.deciding.specs.Stops.{Stop, StopsBefore};

use grouping::inner::clash::clashes;
use grouping::inner::lead::lead_all;
use grouping::inner::marks::{Picks, each_picked};
use grouping::inner::traits::Alike;
use setcheck::inner::read::{config_at, config_count};

// A list of stop states has at most as many.
pub const MOST_STOPS: usize = 64;

// Is a state in the list? The state `last` is.
fn listed_too(stops: &[u32], last: u32, state: u32) -> bool
    requires { any (eqb last) stops.now ≡ true }
    ensures { result ≡ any (eqb state) stops.now }
{
    if state == last {
        return true;
    }
    stops.contains(&state)
}

// Is a config in a listed stop state, where all before it are? Many share the state of the one before.
fn stops_too(set: &[u32], stops: &[u32], place: usize) -> bool
    requires { StopsBefore stops.now set.now place }
    ensures { result ≡ Stop stops.now set.now place }
{
    let state = config_at(set, place).state;
    if place == 0 {
        return stops.contains(&state);
    }
    let last = config_at(set, place - 1).state;
    listed_too(stops, last, state)
}

// Is every config in a listed stop state?
pub fn all_stopped(set: &[u32], stops: &[u32]) -> bool
    requires { Counted set.now }
    ensures { result ≡ stopped stops.now (configs_of set.now) }
{
    for place in 0..config_count(set) as usize {
        if !stops_too(set, stops, place) {
            return false;
        }
    }
    true
}

// Every config has stopped; or some subset has two or more alternatives, and every config has a rival in
// its state. No sorted list is needed.
pub fn decide(set: &[u32], scratch: &mut [u32], stops: &[u32]) -> bool
    requires { Lent set.now scratch.old }
    ensures { (result ≡ verdict stops.now (configs_of set.now)) × Lent set.now scratch.new }
{
    if all_stopped(set, stops) {
        return true;
    }
    let _ = lead_all(set, scratch, Alike::Place);
    if !clashes(set, scratch) {
        return false;
    }
    each_picked(set, scratch, Alike::State, Picks::Rivals)
}
