// The context that a call answers with.
ghost use Rattle.std.specs.Prelude.{◌≡◌};

use words::ContextId;

// A context's number, and how many contexts were made for it.
#[derive(Clone, Copy)]
pub struct Numbered {
    pub context: ContextId,
    pub made: u32,
}

impl Numbered {
    // A context that was there.
    pub fn found(context: ContextId) -> Numbered
        ensures { result ≡ record { context = context; made = 0 } }
    {
        Numbered { context, made: 0 }
    }
}
