// What configs share that are alike.
ghost use Rattle.std.specs.Prelude.{◌≡◌, ◌<◌, length};
ghost use Rattle.groups.specs.Layout.{config_at, most_configs, set_words_length};
ghost use Rattle.setcheck.specs.Keys.{key_words};
ghost use Rattle.grouping.specs.Alike.{shared_words};

use setcheck::inner::keys::Key;
use setcheck::inner::read::config_at;

// Which of state, context and alternative configs must share to be alike.
// Kept as an enum, where a closure would do: the contracts of the walks say by which of these four they go.
#[derive(Clone, Copy)]
pub enum Alike {
    State,
    Place,
    Alternative,
    Triple,
}

// What a config is compared by: state, context and alternative.
pub fn traits_of(set: &[u32], place: usize, alike: Alike) -> Key
    requires { (length set.now ≡ set_words_length) × (place < most_configs) }
    ensures { key_words result ≡ shared_words alike (config_at set.now place) }
{
    let config = config_at(set, place);
    let state = config.state;
    let context = config.context.0;
    let alternative = config.alt.0;
    match alike {
        Alike::State => Key(state, 0, 0, 0),
        Alike::Place => Key(state, context, 0, 0),
        Alike::Alternative => Key(0, 0, alternative, 0),
        Alike::Triple => Key(state, context, alternative, 0),
    }
}
