//! What is answered where a table's counter is shown, and where it is set.

ghost use Rattle.std.specs.Prelude.{◌≡◌, unwrap_or};
ghost use Rattle.server_model.specs.Answers.{ok};
ghost use Rattle.server_model.specs.Effects.{of_table};
ghost use Rattle.server_model.specs.States.{next_of};
ghost use Rattle.server_model.specs.declared.answer.Answer.TheVariants as answers;
ghost use Rattle.table_store.specs.Databases.{database, find_table};

use base_values::Name;
use base_values::mysql_errors::ER_NO_SUCH_TABLE;
use server_api::paged_answers::refuses;
use server_model::Answer;
use server_sessions::live_sessions::Sessions;
use table_store::paged_tables::Tables;

/// The number that the table's AUTO_INCREMENT column gets next, as it is shown.
pub fn counter_shown(tables: &Tables, all_sessions: &Sessions, table: &Name) -> Answer
    ensures { result ≡ of_table (find_table table.now (database tables.now)) (λ t. answers.At (unwrap_or (next_of table.now all_sessions.now.counters) 0)) }
{
    match tables.find(table) {
        Some(_) => Answer::At(all_sessions.next_number(table).unwrap_or(0)),
        None => refuses(ER_NO_SUCH_TABLE),
    }
}

/// What is answered where a table's counter is set. The counter moves once this answer is known.
pub fn counter_set(tables: &Tables, table: &Name) -> Answer
    ensures { result ≡ of_table (find_table table.now (database tables.now)) (λ t. ok) }
{
    match tables.find(table) {
        Some(_) => Answer::Ok(0),
        None => refuses(ER_NO_SUCH_TABLE),
    }
}
