// Compares the hash of each recorded list of words with the Rust's, and prints how many differ.
// data/HOW.txt says what is recorded and how it was made.
#![tactic(auto)]

mod records;

ghost use Rattle.std.specs.Prelude.{◌≤◌};

use records::agrees;
use std::io::Read;
use std::{fs, io};

// Records that are read, at most.
const MOST_HASHES: u64 = 10000;

// How many records were read, and how many of them differ.
#[derive(Clone, Copy)]
struct Tally {
    hashes: u64,
    differences: u64,
}

// Reads records until one is cut short; at most 10,000.
fn compare<R: Read>(file: &mut R) -> Tally
    ensures { result.differences ≤ result.hashes }
{
    let mut record = [0u8; 128];
    let mut list = [0u64; 14];
    let mut differences: u64 = 0;
    for hashes in 0..MOST_HASHES {
        if file.read_exact(&mut record).is_err() {
            return Tally {
                hashes,
                differences,
            };
        }
        if !agrees(&record, &mut list) {
            differences += 1;
        }
    }
    Tally {
        hashes: MOST_HASHES,
        differences,
    }
}

fn main(rt: HostRuntime) -> io::Result<()> {
    let mut file = fs::open(&rt, "hashes.bin")?;
    let Tally {
        hashes,
        differences,
    } = compare(&mut file);
    println!(rt; "{hashes} hashes, {differences} differences")
}
