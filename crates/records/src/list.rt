// A walk over the records.
ghost use Rattle.std.specs.Prelude.{◌≡◌, map};
ghost use Rattle.setcheck.specs.Configs.{config_of};
ghost use Rattle.deciding.specs.Answers.{unique_alt};
ghost use Rattle.deciding.specs.OneAlt.{one_alt};

use setcheck::AtnConfig;
use words::Alternative;

// Which alternative have all configs? All of them are read, without a way out in the middle, so that wide
// loads serve.
pub fn unique_alt(configs: &[AtnConfig]) -> Option<Alternative>
    ensures { one_alt result ≡ unique_alt (map config_of configs.now) }
{
    let first = configs.first()?.alt;
    let mut same = true;
    for config in configs {
        same = same & (config.alt == first);
    }
    same.then_some(first)
}
