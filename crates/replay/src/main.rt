// Runs each recorded script and holds what it gives against the Rust's recorded answer; prints how
// many differ. data/HOW.txt says what is recorded and how it was made.
#![tactic(auto)]

mod sample;

ghost use Rattle.std.specs.Prelude.{◌≡◌, ◌≤◌, length};
ghost use Rattle.replay.specs.Sample.{sample_bytes};

use sample::{Tally, compare};
use std::io::Read;
use std::{fs, io};

// Bytes of a sample, at most.
const SAMPLE_BYTES: usize = 1048576;

// Room for a sample.
fn room() -> [u8; SAMPLE_BYTES]
    ensures { sample_bytes ≡ length result }
{
    [0; SAMPLE_BYTES]
}

// Reads until `buf` is full, the input ends or a read fails, and returns how many bytes it put at the
// start of `buf`.
// Kept by hand: the library's reads to the end want a heap.
fn read_full(input: &mut impl Read, buf: &mut [u8]) -> usize
    ensures { result ≤ length buf.new }
{
    let mut done = 0;
    while done < buf.len() {
        let Ok(n) = input.read(&mut buf[done..]) else {
            break;
        };
        if n == 0 {
            break;
        }
        done += n;
    }
    done
}

// Prints what a comparison found.
fn report(rt: &impl Print, tally: Option<Tally>) -> io::Result<()> {
    let Some(
        Tally {
            scripts,
            differences,
        },
    ) = tally
    else {
        return println!(rt; "sample.bin is cut short");
    };
    println!(rt; "{scripts} scripts, {differences} differences")
}

fn main(rt: HostRuntime) -> io::Result<()> {
    let mut file = fs::open(&rt, "sample.bin")?;
    let mut sample = room();
    let n = read_full(&mut file, &mut sample);
    report(&rt, compare(&sample[..n]))
}
