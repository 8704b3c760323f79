// The subsets, written: for each its state, its context, how many alternatives, and these, rising.
ghost use Rattle.std.specs.Prelude.{◌≡◌, length};
ghost use Rattle.groups.specs.Layout.{config_count};
ghost use Rattle.groups.specs.Groups.{groups};
ghost use Rattle.grouping.specs.Clash.{configs_of};
ghost use Rattle.grouping.specs.Led.{Led};
ghost use Rattle.grouping.specs.declared.inner.traits.Alike.TheVariants.{Place};
ghost use Rattle.outputs.specs.Insert.{row_with};
ghost use Rattle.outputs.specs.Members.{Roomy, alts_at};
ghost use Rattle.outputs.specs.Outputs.{subsets_length, subsets_words};
ghost use Rattle.outputs.specs.Written.{Ending, Listing};

use crate::inner::insert::insert_alt;
use grouping::inner::places::{LEADERS, MEMBERS};
use setcheck::inner::read::{config_at, config_count};

// Writes the alternatives of the subset whose first config stands at a place. How many are there?
pub fn write_members(
    set: &[u32],
    scratch: &[u32],
    output: &mut [u32],
    from: usize,
    place: usize,
) -> usize
    requires { Roomy set.now scratch.now place from output.old }
    ensures { (result ≡ length (alts_at set.now place))
        × (output.new ≡ row_with output.old from (alts_at set.now place)) }
{
    let mut count = 0;
    let mut next = place + 1;
    // Kept by no heap: the next member's place stands in the lent scratch, and the walk goes by these links.
    while next != 0 {
        let member = next - 1;
        count = insert_alt(output, from, count, config_at(set, member).alt.0);
        next = scratch[MEMBERS + member] as usize;
    }
    count
}

// Writes the subset of a config, from `at` on, if the config is its first. Where do the words end then?
fn write_group(set: &[u32], scratch: &[u32], output: &mut [u32], at: usize, place: usize) -> usize
    requires { Listing set.now scratch.now place at output.old }
    ensures { Ending set.now place result output.new }
{
    if scratch[LEADERS + place] as usize != place {
        return at;
    }
    let config = config_at(set, place);
    output[at] = config.state;
    output[at + 1] = config.context.0;
    let count = write_members(set, scratch, output, at + 3, place);
    output[at + 2] = count as u32;
    at + 3 + count
}

// Writes all subsets, in order of their first config, and before them how many there are.
pub fn write_groups(set: &[u32], scratch: &[u32], output: &mut [u32], subsets: usize)
    requires { Led set.now Place (config_count set.now) scratch.now × (length output.old ≡ subsets_length)
        × (subsets ≡ length (groups (configs_of set.now))) }
    ensures { output.new ≡ subsets_words (configs_of set.now) }
{
    words::clear(output);
    output[0] = subsets as u32;
    let count = config_count(set) as usize;
    let mut at = 1;
    for place in 0..count {
        at = write_group(set, scratch, output, at, place);
    }
}
