//! What holds of the answers of all commands. Each law is the contract of a function that does
//! nothing.
ghost use Rattle.app_server.specs.Laws.{OneJudgement, SomeJudgement};

use be_check::a_history_is_finished_or_illegal;
use be_machine::laws::{each_seed_has_one_history, every_history_is_orderly};
use be_made::what_is_made_is_a_script;
use be_report::a_report_tells_its_history;

/// Of each input there is one judgement that is right, whatever the command: that it is bad, that
/// it is illegal, or what is to be written.
pub fn each_input_has_one_judgement()
    ensures some { SomeJudgement }
    ensures alone { OneJudgement }
{
    every_history_is_orderly();
    each_seed_has_one_history();
    a_report_tells_its_history();
    a_history_is_finished_or_illegal();
    what_is_made_is_a_script();
}
