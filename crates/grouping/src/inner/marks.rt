// First configs that are marked by a config of their kind.
ghost use Rattle.std.specs.Prelude.{◌≡◌, ◌<◌, length};
ghost use Rattle.encoding.specs.Layout.{scratch_words};
ghost use Rattle.groups.specs.Layout.{config_at, config_count, most_configs, set_words_length};
ghost use Rattle.groups.specs.Words.{configs_in};
ghost use Rattle.grouping.specs.Led.{Lent};
ghost use Rattle.grouping.specs.Marks.{Markable, Marked, each_picked, marked_if, picks};
ghost use Rattle.grouping.specs.FirstMarked.{FirstMarked, FirstPicked};

use crate::inner::lead::lead_all;
use crate::inner::places::{LEADERS, MARKS, MARKS_END};
use crate::inner::traits::Alike;
use setcheck::inner::read::{config_at, config_count};
use words::Alternative;

// Which configs mark the first one: those with another alternative than it has, or those with this one.
#[derive(Clone, Copy)]
pub enum Picks {
    Rivals,
    Holders(Alternative),
}

// Is a config picked, `leader` being the first one?
// Kept as an enum: contracts name what picks, and a closure would be named by none.
fn picked(set: &[u32], leader: usize, place: usize, by: Picks) -> bool
    requires { (length set.now ≡ set_words_length) × (leader < most_configs) × (place < most_configs) }
    ensures { result ≡ picks by (config_at set.now leader) (config_at set.now place) }
{
    let alternative = config_at(set, place).alt;
    match by {
        Picks::Rivals => alternative != config_at(set, leader).alt,
        Picks::Holders(held) => alternative == held,
    }
}

// Marks a first config, if it is to be.
fn mark_if(scratch: &mut [u32], leader: usize, found: bool)
    requires { (length scratch.old ≡ scratch_words) × (leader < most_configs) }
    ensures { scratch.new ≡ marked_if found scratch.old leader }
{
    if found {
        scratch[MARKS + leader] = 1;
    }
}

// Marks each first config of whose kind one is picked.
pub fn mark_all(set: &[u32], scratch: &mut [u32], by: Picks)
    requires { Markable set.now scratch.old }
    ensures { Marked set.now by (config_count set.now) scratch.old scratch.new }
{
    words::clear_range(scratch, MARKS, MARKS_END);
    let count = config_count(set) as usize;
    for place in 0..count {
        let leader = scratch[LEADERS + place] as usize;
        let found = picked(set, leader, place, by);
        mark_if(scratch, leader, found);
    }
}

// The first config, in set order, whose first one is marked, or is not.
fn first_marked(set: &[u32], scratch: &[u32], marked: bool) -> Option<usize>
    requires { Markable set.now scratch.now }
    ensures { FirstMarked (config_count set.now) scratch.now marked result }
{
    let count = config_count(set) as usize;
    for place in 0..count {
        let leader = scratch[LEADERS + place] as usize;
        let found = scratch[MARKS + leader] != 0;
        if found == marked {
            return Some(place);
        }
    }
    None
}

// The first config, in set order, that has one alike that is picked, or that has none.
pub fn first_picked(
    set: &[u32],
    scratch: &mut [u32],
    alike: Alike,
    by: Picks,
    has: bool,
) -> Option<usize>
    requires { Lent set.now scratch.old }
    ensures { FirstPicked set.now alike by has result × Lent set.now scratch.new }
{
    let _ = lead_all(set, scratch, alike);
    mark_all(set, scratch, by);
    first_marked(set, scratch, has)
}

// Has every config one alike that is picked?
pub fn each_picked(set: &[u32], scratch: &mut [u32], alike: Alike, by: Picks) -> bool
    requires { Lent set.now scratch.old }
    ensures { (result ≡ each_picked alike by (configs_in set.now (config_count set.now)))
        × Lent set.now scratch.new }
{
    first_picked(set, scratch, alike, by, false).is_none()
}
