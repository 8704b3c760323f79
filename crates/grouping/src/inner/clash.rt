// Subsets with two or more alternatives.
ghost use Rattle.std.specs.Prelude.{◌≡◌};
ghost use Rattle.groups.specs.Layout.{config_count};
ghost use Rattle.groups.specs.SetsLists.{any};
ghost use Rattle.groups.specs.Words.{configs_in};
ghost use Rattle.groups.specs.Answers.{many};
ghost use Rattle.groups.specs.Groups.{groups};
ghost use Rattle.grouping.specs.Led.{Led};
ghost use Rattle.grouping.specs.declared.inner.traits.Alike.TheVariants.{Place};

use crate::inner::places::LEADERS;
use setcheck::inner::read::{config_at, config_count};

// Has some subset two or more? Then a config has another alternative than the first of its subset.
pub fn clashes(set: &[u32], scratch: &[u32]) -> bool
    requires { Led set.now Place (config_count set.now) scratch.now }
    ensures { result ≡ any many (groups (configs_in set.now (config_count set.now))) }
{
    let count = config_count(set) as usize;
    for place in 0..count {
        let leader = scratch[LEADERS + place] as usize;
        if config_at(set, place).alt != config_at(set, leader).alt {
            return true;
        }
    }
    false
}
