// The conflicting alternatives, written.
ghost use Rattle.std.specs.Prelude.{◌≡◌, length};
ghost use Rattle.grouping.specs.Clash.{configs_of};
ghost use Rattle.outputs.specs.Alts.{AddedIf, Telling};
ghost use Rattle.outputs.specs.Insert.{Row};
ghost use Rattle.outputs.specs.Outputs.{alts_length, alts_words};

use crate::inner::insert::insert_alt;
use grouping::inner::places::{LEADERS, MARKS};
use setcheck::inner::read::{config_at, config_count};

// Puts an alternative among `count` rising words, if it is to be. How many are there then?
fn add_if(words: &mut [u32], from: usize, count: usize, alternative: u32, found: bool) -> usize
    requires { Row words.old from count alternative }
    ensures { AddedIf found words.old from count alternative result words.new }
{
    if found {
        return insert_alt(words, from, count, alternative);
    }
    count
}

// Writes the alternatives of the configs whose subset has two or more, rising, and before them their count.
pub fn write_alts(set: &[u32], scratch: &[u32], output: &mut [u32])
    requires { Telling set.now scratch.now × (length output.old ≡ alts_length) }
    ensures { output.new ≡ alts_words (configs_of set.now) }
{
    words::clear(output);
    let count = config_count(set) as usize;
    let mut written = 0;
    for place in 0..count {
        let leader = scratch[LEADERS + place] as usize;
        let found = scratch[MARKS + leader] != 0;
        written = add_if(output, 1, written, config_at(set, place).alt.0, found);
    }
    output[0] = written as u32;
}
