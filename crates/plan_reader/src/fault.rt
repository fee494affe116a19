//! Why bytes are no plan.

ghost use Rattle.std.specs.Prelude.{◌≡◌};
ghost use Rattle.plan_reader.specs.Refusals.{table_place, operator_place};

use crate::plan_tables::TableRefusal;
use base_values::Fault;
use plan_keys::KeyRefusal;
use plan_orders::OrderRefusal;
use plan_orders::turn_order::TurnRefusal;
use sql_change::AlterCode;
use sql_statement::ScriptRefusal;

/// Where in a plan a refusal is. Everything is counted from 1.
#[derive(Clone, Copy)]
pub enum Place {
    /// Nowhere that has a number.
    Nowhere,
    /// In the text of this table.
    Table(u32),
    /// In a row of a table.
    Row {
        /// The table's number in the plan.
        table: u32,
        /// The row's number in the table.
        row: u32,
    },
    /// In a line of a client's script.
    Client {
        /// The client's number.
        client: u32,
        /// The line's number in the script's text.
        line: u32,
    },
    /// In this line of the operator's text.
    Operator(u32),
    /// In this loss of a session.
    Fault(u32),
    /// In this word of the order of turns.
    TurnWord(u32),
}

/// Why a plan is refused.
#[derive(Clone, Copy, Debug)]
pub enum PlanRefusal {
    /// 59: a byte past the limit of a plan is there.
    TooLong,
    /// 50: the bytes are no TOML document.
    NotToml,
    /// 51 to 55: a key, its type, its range, or how many of something there are.
    Keys(KeyRefusal),
    /// 10 to 19, 32 and 58: a table's text or one of its rows.
    Tables(TableRefusal),
    /// 56: no table has the name of the one to migrate.
    NoTable,
    /// 57: a table that an earlier run left exists, and the plan doesn't let the tool drop it.
    Leftover,
    /// 20 to 31: the ALTER.
    Alter(AlterCode),
    /// 40 to 46: a line of a client's script.
    Script {
        /// The client's number, from 1.
        client: u32,
        /// Why it is refused, and in which line.
        refusal: ScriptRefusal,
    },
    /// 47: a line of the operator's text.
    Operator(OrderRefusal),
    /// 48 and 56: a loss of a session.
    Fault {
        /// The loss's number, from 1.
        fault: u32,
        /// Why it is refused.
        refusal: OrderRefusal,
    },
    /// 56: a word of the order of turns.
    Turn(TurnRefusal),
}

fn table_place(refusal: TableRefusal) -> Place
    ensures { result ≡ table_place refusal }
{
    match refusal {
        TableRefusal::Schema { table, .. } => Place::Table(table),
        TableRefusal::BadRow { table, row } => Place::Row { table, row },
    }
}

fn operator_place(refusal: OrderRefusal) -> Place
    ensures { result ≡ operator_place refusal }
{
    match refusal {
        OrderRefusal::Command { line } => Place::Operator(line),
        OrderRefusal::Loss => Place::Nowhere,
        OrderRefusal::LossActor => Place::Nowhere,
    }
}

impl PlanRefusal {
    ghost use Rattle.plan_reader.specs.Refusals.{refusal_code, refusal_place};

    /// The refusal's number and its name.
    pub fn code(self) -> (u16, &'static str)
        ensures { (result.0, result.1.now) ≡ refusal_code self }
    {
        match self {
            PlanRefusal::TooLong => (59, "too_long"),
            PlanRefusal::NotToml => (50, "not_toml"),
            PlanRefusal::Keys(refusal) => refusal.code(),
            PlanRefusal::Tables(refusal) => refusal.code(),
            PlanRefusal::NoTable => (56, "unknown_name"),
            PlanRefusal::Leftover => (57, "leftover"),
            PlanRefusal::Alter(code) => (code.number(), code.name()),
            PlanRefusal::Script { refusal, .. } => refusal.code.code(),
            PlanRefusal::Operator(refusal) => refusal.code(),
            PlanRefusal::Fault { refusal, .. } => refusal.code(),
            PlanRefusal::Turn(_) => (56, "unknown_name"),
        }
    }

    /// Where in the plan it is.
    pub fn place(self) -> Place
        ensures { result ≡ refusal_place self }
    {
        match self {
            PlanRefusal::TooLong => Place::Nowhere,
            PlanRefusal::NotToml => Place::Nowhere,
            PlanRefusal::Keys(_) => Place::Nowhere,
            PlanRefusal::Tables(refusal) => table_place(refusal),
            PlanRefusal::NoTable => Place::Nowhere,
            PlanRefusal::Leftover => Place::Nowhere,
            PlanRefusal::Alter(_) => Place::Nowhere,
            PlanRefusal::Script { client, refusal } => Place::Client {
                client,
                line: refusal.line,
            },
            PlanRefusal::Operator(refusal) => operator_place(refusal),
            PlanRefusal::Fault { fault, .. } => Place::Fault(fault),
            PlanRefusal::Turn(refusal) => Place::TurnWord(refusal.word),
        }
    }
}

/// Why a plan isn't read: it is refused, or there is no memory.
pub type PlanFault = Fault<PlanRefusal>;
