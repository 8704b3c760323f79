// One alternative, or none: of every config, or the smallest of every subset. Alternative 0 is one.
ghost use Rattle.std.specs.Prelude.{◌≡◌};
ghost use Rattle.groups.specs.Answers.{single_viable_alt, unique_alt};
ghost use Rattle.grouping.specs.Clash.{configs_of};
ghost use Rattle.grouping.specs.Led.{Lent};
ghost use Rattle.deciding.specs.Alone.{Counted};
ghost use Rattle.deciding.specs.OneAlt.{one_alt};

use crate::inner::least::least_alt;
use grouping::inner::marks::{Picks, each_picked};
use grouping::inner::traits::Alike;
use setcheck::inner::read::{config_at, config_count};
use words::Alternative;

// The alternative of every config.
pub fn common_alt(set: &[u32]) -> Option<Alternative>
    requires { Counted set.now }
    ensures { one_alt result ≡ unique_alt (configs_of set.now) }
{
    let count = config_count(set) as usize;
    if count == 0 {
        return None;
    }
    let first = config_at(set, 0).alt;
    for place in 1..count {
        if config_at(set, place).alt != first {
            return None;
        }
    }
    Some(first)
}

// The smallest alternative of the set, where every subset has it.
pub fn viable_alt(set: &[u32], scratch: &mut [u32]) -> Option<Alternative>
    requires { Lent set.now scratch.old }
    ensures { (one_alt result ≡ single_viable_alt (configs_of set.now)) × Lent set.now scratch.new }
{
    if config_count(set) == 0 {
        return None;
    }
    let least = Alternative(least_alt(set));
    if each_picked(set, scratch, Alike::Place, Picks::Holders(least)) {
        return Some(least);
    }
    None
}
