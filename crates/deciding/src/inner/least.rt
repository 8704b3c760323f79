// The smallest alternative of a set.
ghost use Rattle.std.specs.Prelude.{◌<◌};
ghost use Rattle.groups.specs.Layout.{config_count};
ghost use Rattle.deciding.specs.Alone.{Counted, Least};

use setcheck::inner::read::{config_at, config_count};

// The smallest alternative of a set that has a config.
pub fn least_alt(set: &[u32]) -> u32
    requires { Counted set.now × (0 < config_count set.now) }
    ensures { Least set.now (config_count set.now) result }
{
    let count = config_count(set) as usize;
    let mut least = config_at(set, 0).alt.0;
    for place in 1..count {
        least = least.min(config_at(set, place).alt.0);
    }
    least
}
