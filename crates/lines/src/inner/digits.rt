// Bytes and numbers laid in a buffer, one after the other.
ghost use Rattle.std.specs.Prelude.{[], ◌∷◌, ◌+◌, ◌<◌, ◌≤◌, length};
ghost use Rattle.lines.specs.Decimal.{decimal};
ghost use Rattle.lines.specs.Laid.{Wrote};
ghost use Rattle.lines.specs.Lines.{spaced};

// Bytes of the buffer in which a reply is laid: the longest, of 2,048 entries, has room.
pub const LINE_BYTES: usize = 40000;

// Lays one byte; the answer is the place after it.
#[tactic(auto, using(crate::specs::Laid::Laws::wrote_one))]
pub fn put_byte(out: &mut [u8], at: usize, byte: u8) -> usize
    requires { at < length out.old }
    ensures { Wrote out.old at (byte ∷ []) result out.new }
{
    out[at] = byte;
    at + 1
}

// Lays a number in decimal digits, without leading zeros.
// Kept by hand: the bytes go into a lent buffer, with no heap, and `decimal` says each of them.
pub fn put_decimal(out: &mut [u8], at: usize, n: u32) -> usize
    requires { at + length (decimal n) ≤ length out.old }
    ensures { Wrote out.old at (decimal n) result out.new }
{
    if n < 10 {
        return put_byte(out, at, 48 + n as u8);
    }
    let next = put_decimal(out, at, n / 10);
    put_byte(out, next, 48 + (n % 10) as u8)
}

// Lays a space and a number.
pub fn put_spaced(out: &mut [u8], at: usize, n: u32) -> usize
    requires { at + length (spaced n) ≤ length out.old }
    ensures { Wrote out.old at (spaced n) result out.new }
{
    let next = put_byte(out, at, b' ');
    put_decimal(out, next, n)
}
