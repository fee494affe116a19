//! What holds of the definitions alone: that a checkpoint row is read as the checkpoint whose row it is.

ghost use Rattle.tool_notes.specs.Laws.{ReadHasRow, RowsAreRead};

/// What is read from a row is a checkpoint whose row it is.
pub fn read_checkpoints_have_their_row()
    ensures { ReadHasRow }
{}

/// The row of a checkpoint is read as this checkpoint.
pub fn checkpoint_rows_are_read()
    ensures { RowsAreRead }
{}
