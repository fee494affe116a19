//! What the text of the workload of every number is, and that it is a plan.

ghost use Rattle.law_texts.specs.Workloads.Document.Laws.{WorkloadsAreDocuments, WorkloadsAreUtf8, WorkloadsAreShort, KeysAreInRange};
ghost use Rattle.law_texts.specs.Workloads.Laws.{AltersAreTaken, TablesAreRead, TablesAreTables, ScriptsAreRead};
ghost use Rattle.law_texts.specs.Workloads.Plans.{WorkloadsAreRead};

use base_values::laws::stored_values_store_again;
use table_store::laws::put_keeps_tables;

/// The generated text is UTF-8 and short, and a TOML document, stated key by key.
pub fn workloads_are_documents()
    ensures document { WorkloadsAreDocuments }
    ensures utf8 { WorkloadsAreUtf8 }
    ensures short { WorkloadsAreShort }
{}

/// Its keys are a plan's keys, in range, and say what they say.
pub fn workload_keys_are_in_range()
    ensures { KeysAreInRange }
{}

/// A workload's CREATE TABLE and its ALTER are read, and both schemas are valid.
pub fn workload_alters_are_taken()
    ensures { AltersAreTaken }
{}

/// Its rows are read as those of one table, in order, no two of which clash.
pub fn workload_tables_are_read()
    ensures read { TablesAreRead }
    ensures tables { TablesAreTables }
{
    stored_values_store_again();
    put_keeps_tables();
}

/// Its clients' scripts are read, statement by statement.
pub fn workload_scripts_are_read()
    ensures { ScriptsAreRead }
{}

/// The workload of every number is read as this plan: no rule refuses it.
pub fn workloads_are_read()
    ensures { WorkloadsAreRead }
{}
