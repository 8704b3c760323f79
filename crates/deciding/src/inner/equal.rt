// Whether all subsets are equal.
ghost use Rattle.std.specs.Prelude.{◌≡◌};
ghost use Rattle.groups.specs.Answers.{all_subsets_equal};
ghost use Rattle.grouping.specs.Clash.{configs_of};
ghost use Rattle.grouping.specs.Led.{Lent};

use grouping::inner::lead::lead_all;
use grouping::inner::traits::Alike;

// Have all subsets the same alternatives? Then there are as many triples of state, context and
// alternative as subsets times alternatives.
pub fn subsets_equal(set: &[u32], scratch: &mut [u32]) -> bool
    requires { Lent set.now scratch.old }
    ensures { (result ≡ all_subsets_equal (configs_of set.now)) × Lent set.now scratch.new }
{
    let triples = lead_all(set, scratch, Alike::Triple);
    let subsets = lead_all(set, scratch, Alike::Place);
    let alternatives = lead_all(set, scratch, Alike::Alternative);
    triples == subsets * alternatives
}
