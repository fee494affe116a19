//! Why a text orders nothing.

ghost use Rattle.std.specs.Prelude.{◌≡◌};

use base_values::Fault;

/// Why a text is refused.
#[derive(Clone, Copy, Debug)]
pub enum OrderRefusal {
    /// 47: a line of the operator's text is no command, or its number is out of range.
    Command {
        /// The line's number in the text, from 1.
        line: u32,
    },
    /// 48: the text is no loss.
    Loss,
    /// 56: the loss is of an actor that the plan doesn't have.
    LossActor,
}

impl OrderRefusal {
    ghost use Rattle.plan_orders.specs.Refusals.{order_code};

    /// The refusal's number and its name.
    pub fn code(self) -> (u16, &'static str)
        ensures { (result.0, result.1.now) ≡ order_code self }
    {
        match self {
            OrderRefusal::Command { .. } => (47, "operator_word"),
            OrderRefusal::Loss => (48, "fault_line"),
            OrderRefusal::LossActor => (56, "unknown_name"),
        }
    }
}

/// Why a text isn't read: it is refused, or there is no memory.
pub type OrderFault = Fault<OrderRefusal>;
