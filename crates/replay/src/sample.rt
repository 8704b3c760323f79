// A sample: scripts and answers in turn, each with its length in four bytes before it.
ghost use Rattle.std.specs.Prelude.{◌≤◌, length};
ghost use Rattle.replay.specs.Sample.{Differs, PartIs, Tallied};

use format::inner::bytes::u32_at;

// How many scripts there are, and how many of them give another answer.
#[derive(Clone, Copy)]
pub struct Tally {
    pub scripts: u64,
    pub differences: u64,
}

// Where the part starts and ends whose length stands at a place, unless it is cut short.
fn part_at(bytes: &[u8], at: usize) -> Option<(usize, usize)>
    requires { at ≤ length bytes.now }
    ensures { PartIs bytes.now at result }
{
    if bytes.len() - at < 4 {
        return None;
    }
    let length = u32_at(bytes, at) as usize;
    let start = at + 4;
    if bytes.len() - start < length {
        return None;
    }
    Some((start, start + length))
}

// 1 where a script gives another answer, else 0.
fn difference(script: &[u8], answer: &[u8]) -> u64
    ensures { Differs script.now answer.now result }
{
    if script::replays(script, answer) {
        return 0;
    }
    1
}

// Runs every script of a sample, unless that is cut short.
pub fn compare(bytes: &[u8]) -> Option<Tally>
    ensures { Tallied bytes.now result }
{
    let mut at = 0;
    let mut scripts: u64 = 0;
    let mut differences: u64 = 0;
    // Kept: the length of each part says where the next one starts, so there is nothing to count.
    while at < bytes.len() {
        let (from, to) = part_at(bytes, at)?;
        let (start, end) = part_at(bytes, to)?;
        scripts += 1;
        differences += difference(&bytes[from..to], &bytes[start..end]);
        at = end;
    }
    Some(Tally {
        scripts,
        differences,
    })
}
