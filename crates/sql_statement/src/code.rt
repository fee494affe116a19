//! Why a statement or a script is refused.

ghost use Rattle.std.specs.Prelude.{◌≡◌};

use base_values::Fault;

/// Why a line's words are refused, each with its number.
#[derive(Clone, Copy, Debug)]
pub enum StatementCode {
    /// 41: the words are no statement as this program reads it.
    Syntax,
    /// 42: the line has what MySQL has and this program leaves out.
    Scope,
}

/// Why a line of a script is refused, each with its number.
#[derive(Clone, Copy, Debug)]
pub enum ScriptCode {
    /// 40: the line has an open quote, an odd character or too long a number.
    Word,
    /// 41 and 42: its words are refused.
    Statement(StatementCode),
    /// 43: BEGIN is inside a transaction.
    BeginInside,
    /// 44: COMMIT or ROLLBACK is outside a transaction.
    EndOutside,
    /// 45: it is the last line, and leaves a transaction open.
    LeftOpen,
    /// 46: it names one of the tool's tables.
    ToolTable,
}

impl ScriptCode {
    ghost use Rattle.sql_statement.specs.Codes.{script_code};

    /// The refusal's number and its name.
    pub fn code(self) -> (u16, &'static str)
        ensures { (result.0, result.1.now) ≡ script_code self }
    {
        match self {
            ScriptCode::Word => (40, "script_word"),
            ScriptCode::Statement(StatementCode::Syntax) => (41, "statement_syntax"),
            ScriptCode::Statement(StatementCode::Scope) => (42, "statement_scope"),
            ScriptCode::BeginInside => (43, "begin_inside"),
            ScriptCode::EndOutside => (44, "end_outside"),
            ScriptCode::LeftOpen => (45, "left_open"),
            ScriptCode::ToolTable => (46, "tool_table"),
        }
    }
}

/// The refusal of a script: of its first line that is refused.
#[derive(Clone, Copy, Debug)]
pub struct ScriptRefusal {
    /// Why it is refused.
    pub code: ScriptCode,
    /// The line's number in the text, from 1.
    pub line: u32,
}

/// Why a line's words aren't read: they are refused, or there is no memory.
pub type StatementFault = Fault<StatementCode>;

/// Why a line isn't read: it is refused, or there is no memory.
pub type LineFault = Fault<ScriptCode>;

/// Why a script isn't read: it is refused, or there is no memory.
pub type ScriptFault = Fault<ScriptRefusal>;
