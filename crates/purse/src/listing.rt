// The door to a question on a list of config records.
ghost use Rattle.std.specs.Prelude.{◌≡◌, map};
ghost use Rattle.setcheck.specs.Configs.{config_of};
ghost use Rattle.verdicts.specs.Answers.{unique_alt};
ghost use Rattle.verdicts.specs.Calls.{alternative};
ghost use Rattle.answers.specs.VerdictAnswers.{alt_answer_of};

use answers::{EntryAnswer, entry_answer};
use setcheck::AtnConfig;

// Which alternative have all configs of the list?
#[unsafe(no_mangle)]
pub extern "C" fn purse_unique_alt_of(configs: &[AtnConfig]) -> EntryAnswer
    ensures { result ≡ alt_answer_of (alternative (unique_alt (map config_of configs.now))) }
{
    entry_answer(Ok(records::unique_alt(configs)))
}
