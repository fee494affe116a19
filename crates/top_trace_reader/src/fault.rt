//! Why bytes are no trace.

ghost use Rattle.std.specs.Prelude.{◌≡◌};

use base_values::Fault;
use plan_reader::PlanRefusal;

/// Why bytes are no trace.
#[derive(Clone, Copy, Debug)]
pub enum TraceRefusal {
    /// 59: a byte past the limit of a trace is there.
    TooLong,
    /// 61: no line is `#journal`.
    NoJournal,
    /// The plan is refused.
    Plan(PlanRefusal),
    /// 61: this line isn't one that may come. Lines count from 1, after `#journal`.
    Line(u64),
}

impl TraceRefusal {
    ghost use Rattle.top_trace_reader.specs.Refusals.{trace_code};

    /// The refusal's number and its name.
    pub fn code(self) -> (u16, &'static str)
        ensures { (result.0, result.1.now) ≡ trace_code self }
    {
        match self {
            TraceRefusal::TooLong => (59, "too_long"),
            TraceRefusal::NoJournal => (61, "trace_syntax"),
            TraceRefusal::Plan(refusal) => refusal.code(),
            TraceRefusal::Line(_) => (61, "trace_syntax"),
        }
    }
}

/// Why a trace isn't read: it is refused, or there is no memory.
pub type TraceFault = Fault<TraceRefusal>;
