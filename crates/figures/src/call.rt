// The one call.
ghost use Rattle.std.specs.Prelude.{◌≡◌, []};
ghost use Rattle.grouping.specs.Clash.{configs_of};
ghost use Rattle.grouping.specs.Led.{Lent};
ghost use Rattle.verdicts.specs.Calls.{verdict_left};
ghost use Rattle.figures.specs.Calls.{figures_call, figures_of};
ghost use Rattle.figures.specs.Replies.{summary_of, told};

use crate::answers::Figures;
use deciding::inner::single::{common_alt, viable_alt};
use deciding::inner::verdict::{MOST_STOPS, decide};
use grouping::inner::lead::lead_all;
use grouping::inner::traits::Alike;
use setcheck::inner::open::open_set;
use words::Refusal;

// The figures of a set that is known to be sound.
fn all_figures(set: &[u32], scratch: &mut [u32], stops: &[u32]) -> Figures
    requires { Lent set.now scratch.old }
    ensures { (summary_of result ≡ figures_of stops.now (configs_of set.now)) × Lent set.now scratch.new }
{
    let subsets = lead_all(set, scratch, Alike::Place);
    let unique = common_alt(set);
    let viable = viable_alt(set, scratch);
    let verdict = decide(set, scratch, stops);
    Figures {
        subsets: subsets as u32,
        unique,
        viable,
        verdict,
    }
}

// How many subsets, which unique and which viable alternative, and what verdict with these stop states?
pub fn figures(
    store: &[u32],
    set: &[u32],
    scratch: &mut [u32],
    stops: &[u32],
) -> Result<Figures, Refusal>
    ensures { verdict_left (told result) scratch.new []
        ≡ figures_call store.now set.now scratch.old stops.now }
{
    open_set(store, set, scratch)?;
    if MOST_STOPS < stops.len() {
        words::clear(scratch);
        return Err(Refusal::TooManyStops);
    }
    let all = all_figures(set, scratch, stops);
    words::clear(scratch);
    Ok(all)
}
