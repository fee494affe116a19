//! What holds of all schemas that are read, and that the printed text of a schema is read as that schema.

ghost use Rattle.sql_create.specs.Laws.{ReadSchemasAreValid};
ghost use Rattle.proof_schemas.specs.Printed.Laws.{PrintedSchemasHaveWords, PrintedColumnsAreRead, PrintedSchemasAreWritten};
ghost use Rattle.proof_schemas.specs.ReadAgain.{PrintedSchemasAreReadAgain, ReadSchemasAreDeclared, ReadSchemasCanPrint, ReadSchemasAreReadAgain};

use base_values::laws::stored_values_store_again;

/// Every schema that is read is valid.
pub fn read_schemas_are_valid()
    ensures { ReadSchemasAreValid }
{
    stored_values_store_again();
}

/// The words of a schema's printed text are those of its columns and keys, and it has no fault.
pub fn printed_schemas_have_words()
    ensures { PrintedSchemasHaveWords }
{}

/// The words of a column's line are read as that column.
pub fn printed_columns_are_read()
    ensures { PrintedColumnsAreRead }
{}

/// The printed text of a valid schema is a CREATE TABLE of its columns and keys.
pub fn printed_schemas_are_written()
    ensures { PrintedSchemasAreWritten }
{}

/// The schema of the printed text is the schema that was printed.
pub fn printed_schemas_are_read_again()
    ensures { PrintedSchemasAreReadAgain }
{}

/// Every schema that is read has valid names, few keys of different names, and defaults that fit.
pub fn read_schemas_are_declared()
    ensures { ReadSchemasAreDeclared }
{}

/// Every schema that is read of a text of bytes can be printed.
pub fn read_schemas_can_print()
    ensures { ReadSchemasCanPrint }
{
    stored_values_store_again();
}

/// What is printed of a schema that was read of a text of bytes is read as that schema.
pub fn read_schemas_are_read_again()
    ensures { ReadSchemasAreReadAgain }
{
    stored_values_store_again();
}
