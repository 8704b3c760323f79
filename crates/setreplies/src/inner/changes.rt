// A new set, a config more, a set closed, each with its reply laid out.
ghost use Rattle.std.specs.Prelude.{not, []};
ghost use Rattle.lines.specs.Calls.{add_call, close_call};
ghost use Rattle.setcheck.specs.Configs.{config_of};
ghost use Rattle.lines.specs.Lines.{closed_line};
ghost use Rattle.setreplies.specs.Settled.{Renewed, SetReplied};

use configs::Added;
use lines::LINE_BYTES;
use lines::inner::numbers::{lay_line, lay_refusal};
use replies::inner::calls::wipe;
use setcheck::AtnConfig;

// Makes the lent words a set without configs.
pub fn new_set(
    set: &mut [u32],
    scratch: &mut [u32],
    wildcard: bool,
    out: &mut [u8; LINE_BYTES],
) -> usize
    ensures { Renewed out.old set.old scratch.old (not wildcard) result out.new set.new scratch.new }
{
    match configs::fresh_set(set, !wildcard) {
        Ok(()) => {
            wipe(scratch);
            lay_line(out, b'N', &[])
        }
        Err(refusal) => lay_refusal(out, refusal),
    }
}

// Adds a config.
pub fn add(
    store: &mut [u32],
    set: &mut [u32],
    scratch: &mut [u32],
    config: AtnConfig,
    out: &mut [u8; LINE_BYTES],
) -> usize
    ensures { SetReplied out.old [] (add_call store.old set.old scratch.old (config_of config))
        result out.new store.new set.new scratch.new }
{
    match configs::add(store, set, scratch, config) {
        Ok(Added::Inserted) => lay_line(out, b'A', &[1, 0]),
        Ok(Added::Merged(tally)) => lay_line(out, b'A', &[0, tally.made]),
        Err(refusal) => lay_refusal(out, refusal),
    }
}

// Closes the set.
pub fn close(
    store: &[u32],
    set: &mut [u32],
    scratch: &mut [u32],
    out: &mut [u8; LINE_BYTES],
) -> usize
    ensures { SetReplied out.old closed_line (close_call store.now set.old scratch.old)
        result out.new store.now set.new scratch.new }
{
    match configs::close(store, set, scratch) {
        Ok(()) => lay_line(out, b'K', &[]),
        Err(refusal) => lay_refusal(out, refusal),
    }
}
