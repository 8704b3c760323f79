// The provenance word: bit 31 is the precedence-filter mark, the lower 31 bits are the id.
ghost use Rattle.std.specs.Prelude.{◌≡◌};
ghost use Rattle.words.specs.Provenance.{id_of, mark_of, merged_marks};

// The id alone, without the mark.
pub fn provenance_id(word: u32) -> u32
    ensures { result ≡ id_of word }
{
    word & 0x7fff_ffff
}

// The mark alone, at its place: 0 or 2^31.
pub fn provenance_mark(word: u32) -> u32
    ensures { result ≡ mark_of word }
{
    word & 0x8000_0000
}

// The kept word with the mark of either.
pub fn merge_marks(kept: u32, other: u32) -> u32
    ensures { result ≡ merged_marks kept other }
{
    kept | (other & 0x8000_0000)
}
