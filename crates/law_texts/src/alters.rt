//! What holds of all ALTERs that are taken, and that the printed text of an altered schema is read as that schema.

ghost use Rattle.proof_schemas.specs.Alters.Laws.{ConvertedRowsKeepKeys, ConvertedRowsStayApart, ClusteredKeysStay, ConvertedRowsKeepClusteredKeys, AlteredTablesKeepNames, AlteredSchemasAreValid, ReadClausesWriteKinds, ConvertedRowsAreRows, MapsFit, AlteredTablesAreTables};
ghost use Rattle.proof_schemas.specs.Alters.ReadAgain.{AlteredSchemasAreDeclared, AlteredSchemasAreReadAgain};

use base_values::laws::stored_values_store_again;

/// Each unique key of an altered table is one of the old table, and a converted row has its row's own key.
pub fn converted_rows_keep_keys()
    ensures keys { ConvertedRowsKeepKeys }
    ensures apart { ConvertedRowsStayApart }
    ensures clustered { ClusteredKeysStay }
    ensures clustered_keys { ConvertedRowsKeepClusteredKeys }
{}

/// An altered table has its old name.
pub fn altered_tables_keep_names()
    ensures { AlteredTablesKeepNames }
{}

/// Every altered schema is valid.
pub fn altered_schemas_are_valid()
    ensures { AlteredSchemasAreValid }
{
    stored_values_store_again();
}

/// The clauses of a text write kinds of this program, as `altered_schemas_are_valid` asks.
pub fn read_clauses_write_kinds()
    ensures { ReadClausesWriteKinds }
{}

/// A converted row is a row of the altered table, and the map has as many columns as the table.
pub fn converted_rows_are_rows()
    ensures rows { ConvertedRowsAreRows }
    ensures maps { MapsFit }
{
    stored_values_store_again();
}

/// An altered table is a table.
pub fn altered_tables_are_tables()
    ensures { AlteredTablesAreTables }
{
    stored_values_store_again();
}

/// An ALTER of a schema that CREATE TABLE gives leaves one that CREATE TABLE gives.
pub fn altered_schemas_are_declared()
    ensures { AlteredSchemasAreDeclared }
{}

/// What is printed of an altered schema is read as that schema.
pub fn altered_schemas_are_read_again()
    ensures { AlteredSchemasAreReadAgain }
{
    stored_values_store_again();
}
