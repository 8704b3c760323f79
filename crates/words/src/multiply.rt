// Multiplication modulo 2^64 by doubling and adding. The bits of the factor are taken from the highest
// on. At each the sum is doubled, and x is added if the bit is set: so the sum is always x times the
// bits taken so far, read as a number.
ghost use Rattle.std.specs.Prelude.{◌≡◌, ◌*◌, ◌%◌, ◌^◌};
ghost use Rattle.words.specs.Multiply.{taken};

// The sum after one bit more, the lowest of these.
fn take_bit(sum: u64, x: u64, bits: u64) -> u64
    ensures { result ≡ taken 1 sum x bits }
{
    // With a bit below them the bits before count twice. A carry out of 64 bits falls away.
    let doubled = sum << 1;
    // A bit that is not set adds nothing.
    if bits % 2 == 0 {
        return doubled;
    }
    // A set bit adds x. A carry falls away.
    std::num::wrapping_add_u64(doubled, x)
}

// The sum after eight bits more, the lowest of these.
fn take_8(sum: u64, x: u64, bits: u64) -> u64
    ensures { result ≡ taken 8 sum x bits }
{
    // Each is the lowest when those below it are divided away.
    let after_1 = take_bit(sum, x, bits / 128);
    let after_2 = take_bit(after_1, x, bits / 64);
    let after_3 = take_bit(after_2, x, bits / 32);
    let after_4 = take_bit(after_3, x, bits / 16);
    let after_5 = take_bit(after_4, x, bits / 8);
    let after_6 = take_bit(after_5, x, bits / 4);
    let after_7 = take_bit(after_6, x, bits / 2);
    take_bit(after_7, x, bits)
}

// The sum after 32 bits more, the lowest of these: four times eight, by the same rule.
fn take_32(sum: u64, x: u64, bits: u64) -> u64
    ensures { result ≡ taken 32 sum x bits }
{
    let after_8 = take_8(sum, x, bits / 0x100_0000);
    let after_16 = take_8(after_8, x, bits / 0x1_0000);
    let after_24 = take_8(after_16, x, bits / 0x100);
    take_8(after_24, x, bits)
}

// x times y modulo 2^64: the sum, from 0 on, after all 64 bits of y. There is no loop, and there are
// two halves, so that the compiler makes one multiplication of it wherever it knows y (docs/landings/A5.md).
// Kept by request A5 and its edits carry_kept, doubling_too_many and set_bit_left_out, where the library has one.
pub fn wrapping_mul(x: u64, y: u64) -> u64
    ensures { result ≡ (x * y) % 2 ^ 64 }
{
    let after_32 = take_32(0, x, y / 0x1_0000_0000);
    take_32(after_32, x, y)
}
