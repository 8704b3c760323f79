// An alternative put where it belongs among rising words. The way is from the right, since alternatives mostly
// come rising.
// Kept by hand, two loops that count down over place and length: by `for`, slices or the library's `copy_within`
// many falling alternatives take half as long again or more (docs/DESIGN-PASS.md).
ghost use Rattle.std.specs.Prelude.{◌≡◌, ◌+◌, ◌<◌, ◌≤◌, length, set};
ghost use Rattle.groups.specs.Groups.{insert};
ghost use Rattle.outputs.specs.Insert.{Row, ends_in, gap, part, row_with, seat_of};

// How many of `count` rising words, from `from` on, are not above an alternative.
fn seat(words: &[u32], from: usize, count: usize, alternative: u32) -> usize
    requires { from + count ≤ length words.now }
    ensures { result ≡ seat_of words.now from count alternative }
{
    let mut left = count;
    while 0 < left {
        if words[from + left - 1] <= alternative {
            return left;
        }
        left -= 1;
    }
    0
}

// Is an alternative the last of `count` words, from `from` on?
fn ends_in(words: &[u32], from: usize, count: usize, alternative: u32) -> bool
    requires { from + count ≤ length words.now }
    ensures { result ≡ ends_in words.now from count alternative }
{
    if count == 0 {
        return false;
    }
    words[from + count - 1] == alternative
}

// Moves `count` words, from `at` on, up by one, and puts an alternative into the gap.
fn put_in(words: &mut [u32], at: usize, count: usize, alternative: u32)
    requires { at + count < length words.old }
    ensures { words.new ≡ set (gap words.old at count) at alternative }
{
    let mut left = count;
    while 0 < left {
        words[at + left] = words[at + left - 1];
        left -= 1;
    }
    words[at] = alternative;
}

// Puts an alternative among `count` rising words, from `from` on, unless it is there. How many are there then?
pub fn insert_alt(words: &mut [u32], from: usize, count: usize, alternative: u32) -> usize
    requires { Row words.old from count alternative }
    ensures { (result ≡ length (insert alternative (part words.old from count)))
        × (words.new ≡ row_with words.old from (insert alternative (part words.old from count))) }
{
    let place = seat(words, from, count, alternative);
    if ends_in(words, from, place, alternative) {
        return count;
    }
    put_in(words, from + place, count - place, alternative);
    count + 1
}
