//! The law: its function's contract is it.

ghost use Rattle.test_histories.specs.Laws.{SerialIsAlone};

/// A history is serial exactly where the model gives its replies and its tables.
pub fn serial_is_alone()
    ensures { SerialIsAlone }
{}
