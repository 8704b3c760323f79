// The end line of a script.
ghost use Rattle.lines.specs.Laid.{Wrote};
ghost use Rattle.lines.specs.Lines.{end_line};

use crate::inner::digits::LINE_BYTES;
use crate::inner::numbers::lay_line;
use layout::STORE_WORDS;

// Lays the end line of a script that leaves this store.
pub fn lay_end(out: &mut [u8; LINE_BYTES], store: &[u32; STORE_WORDS]) -> usize
    ensures { Wrote out.old 0 (end_line store.now) result out.new }
{
    let contexts = layout::count_of(store);
    let entries = layout::used_of(store);
    lay_line(out, b'T', &[contexts, entries])
}
