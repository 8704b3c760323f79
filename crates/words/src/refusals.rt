// The refusals, as document 01 numbers them.
ghost use Rattle.std.specs.Prelude.{◌≡◌};
ghost use Rattle.words.specs.Refusals.{number};

// Why a call was refused, in the order of checking; room and work, by which is reached first. Document 02's numbers 13 to 15 come here.
#[derive(Clone, Copy, Debug, PartialEq, Eq)]
pub enum Refusal {
    WrongLength,
    UnsoundStore,
    UnsoundSet,
    TooManyStops,
    ReadOnlySet,
    UnknownContext,
    StateOutOfRange,
    FullSet,
    FullStore,
    TooMuchWork,
    MalformedRecord,
}

// The number that the border shows for a refusal.
impl From<Refusal> for u32 {
    ghost from_gives = { λ refusal n. n ≡ number refusal };

    fn from(refusal: Refusal) -> u32 {
        match refusal {
            Refusal::WrongLength => 2,
            Refusal::UnsoundStore => 1,
            Refusal::UnsoundSet => 3,
            Refusal::TooManyStops => 10,
            Refusal::ReadOnlySet => 7,
            Refusal::UnknownContext => 4,
            Refusal::StateOutOfRange => 5,
            Refusal::FullSet => 8,
            Refusal::FullStore => 6,
            Refusal::TooMuchWork => 12,
            Refusal::MalformedRecord => 9,
        }
    }
}
