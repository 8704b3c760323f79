// The reason for the verdict on the configs of a sound set.
ghost use Rattle.std.specs.Prelude.{◌≡◌, length, Ok};
ghost use Rattle.groups.specs.Reason.{reason as reasonOf};
ghost use Rattle.grouping.specs.Clash.{configs_of};
ghost use Rattle.grouping.specs.Led.{Lent};
ghost use Rattle.outputs.specs.Outputs.{alts_length};
ghost use Rattle.verdicts.specs.Calls.{because};
ghost use Rattle.reasons.specs.Calls.{reason_words};
ghost use Rattle.reasons.specs.Replies.{told};

use crate::answers::Reason;
use crate::inner::clash::write_clash;
use deciding::inner::verdict::all_stopped;
use grouping::inner::marks::{Picks, first_picked};
use grouping::inner::traits::Alike;
use setcheck::inner::read::config_at;

// The reasons are tried in order: all stopped, no clash, a state with one alternative, a clash.
pub fn reason_of(set: &[u32], scratch: &mut [u32], stops: &[u32], output: &mut [u32]) -> Reason
    requires { Lent set.now scratch.old × (length output.old ≡ alts_length) }
    ensures { (told (Ok result) output.new ≡ because (reasonOf stops.now (configs_of set.now)))
        × (output.new ≡ reason_words (reasonOf stops.now (configs_of set.now)))
        × Lent set.now scratch.new }
{
    words::clear(output);
    if all_stopped(set, stops) {
        return Reason::Stop;
    }
    let Some(first) = first_picked(set, scratch, Alike::Place, Picks::Rivals, true) else {
        return Reason::NoClash;
    };
    if let Some(place) = first_picked(set, scratch, Alike::State, Picks::Rivals, false) {
        let lone = config_at(set, place);
        return Reason::One(lone.state, lone.alt);
    }
    write_clash(set, scratch, output, first);
    let clash = config_at(set, first);
    Reason::Clash(clash.state, clash.context)
}
