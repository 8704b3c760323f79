// Runs the script on standard input over a fresh store, an empty full-context set and no stop states: a line a record, then the
// end line.
#![tactic(auto)]

ghost use Rattle.std.specs.Prelude.{◌≡◌, ◌≤◌, length, IfOk};
ghost use Rattle.steps.specs.Lent.{lent_of};
ghost use Rattle.steps.specs.Steps.{fresh};
ghost use Rattle.trace.specs.Traced.{Traced};

use std::io;
use std::io::Read;
use steps::{MOST_BYTES, Ran, Room};

// Writes the reply that stands at the start of `out`. Where that fails, it says so.
fn write_reply(rt: &(impl Print + Eprint), out: &[u8], wrote: usize) -> bool
    requires { wrote ≤ length out.now }
{
    if rt.write_all(&out[..wrote]).is_ok() {
        return true;
    }
    let _ = rt.eprintln("trace: standard output cannot be written");
    false
}

// Runs a script from the start, in a fresh room: each reply is written as it comes, then the end line.
// False where a write failed: there it stops.
fn run_script(rt: &(impl Print + Eprint), bytes: &[u8], room: &mut Room) -> bool
    requires { lent_of room.old ≡ fresh }
    ensures { Traced bytes.now result (lent_of room.new) }
{
    let mut at = 0;
    // Kept as a loop: a step says where the next begins, and whether there is one.
    loop {
        match room.step(bytes, at) {
            Ran::Next(wrote, next) => {
                if !write_reply(rt, &room.out, wrote) {
                    return false;
                }
                at = next;
            }
            Ran::Over(wrote) => {
                if !write_reply(rt, &room.out, wrote) {
                    return false;
                }
                let last = lines::lay_end(&mut room.out, &room.store);
                return write_reply(rt, &room.out, last);
            }
        }
    }
}

// Reads until `buf` is full or the input ends, and returns how many bytes it put at the start of
// `buf`. A read that a signal interrupts counts as one that failed.
// Kept by hand: the library's reads to the end want a heap, or retry such a read.
fn read_full(input: &mut impl Read, buf: &mut [u8]) -> io::Result<usize>
    ensures { IfOk result (λ n. n ≤ length buf.new) }
{
    let mut done = 0;
    while done < buf.len() {
        let n = input.read(&mut buf[done..])?;
        if n == 0 {
            break;
        }
        done += n;
    }
    Ok(done)
}

// One byte more than a script may have is enough to see that it is overlong.
fn main(rt: HostRuntime) {
    let mut input = [0u8; MOST_BYTES + 1];
    let mut room = Room::new();
    match read_full(&mut rt.stdin(), &mut input) {
        Ok(n) => {
            run_script(&rt, &input[..n], &mut room);
        }
        Err(_) => {
            let _ = rt.eprintln("trace: standard input cannot be read");
        }
    }
}
