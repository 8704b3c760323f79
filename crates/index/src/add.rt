// A context put in front of its bucket's chain.
ghost use Rattle.std.specs.Prelude.{◌≡◌, ◌<◌};
ghost use Rattle.words.specs.Lent.{cleared_range};
ghost use Rattle.index.specs.Writes.{put_index};
ghost use Rattle.layout.specs.Layout.{most_contexts};

use crate::hash::bucket;
use crate::places::{BUCKETS, HEADS, HIGHS, LINKS, LOWS};
use layout::ScratchWords;

pub fn add_to_index(scratch: &mut ScratchWords, context: usize, hash: u64)
    requires { context < most_contexts }
    ensures { scratch.new ≡ put_index scratch.old context hash }
{
    let chain = bucket(hash);
    let older = scratch[chain];
    scratch[LINKS + context] = older;
    scratch[chain] = (context + 1) as u32;
    scratch[LOWS + context] = (hash % 0x1_0000_0000) as u32;
    scratch[HIGHS + context] = (hash / 0x1_0000_0000) as u32;
}

// Makes every chain empty.
pub fn clear_heads(scratch: &mut ScratchWords)
    ensures { scratch.new ≡ cleared_range scratch.old 0 512 }
{
    words::clear_range(scratch, HEADS, BUCKETS);
}
