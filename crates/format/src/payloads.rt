// The payload that each kind of record must have.
ghost use Rattle.std.specs.Prelude.{◌≡◌};
ghost use Rattle.format.specs.Payloads.{accepts, payload_of};

// May a record of this kind have so many bytes of payload? By kind: singleton, merge, new set, add,
// stop states, verdict, show, close, why.
// Kept as numbers: an enum of kinds between here and `read_payload` would name each kind once more than these two do.
#[tactic(auto, unfolding(crate::specs::Payloads::accepts, crate::specs::Payloads::payload_of, crate::specs::Payloads::payloads))]
pub fn payload_fits(kind: u32, length: u32) -> bool
    ensures { result ≡ accepts (payload_of kind) length }
{
    match kind {
        1 => length == 12,
        2 => length == 9,
        3 => length == 1,
        4 => length == 24,
        5 => length % 4 == 0,
        6 => length == 0,
        7 => length == 4,
        8 => length == 0,
        9 => length == 0,
        _ => false,
    }
}
