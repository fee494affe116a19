//! What the operator commands, which sessions are lost, and whose turns are asked for.

ghost use Rattle.std.specs.Prelude.{◌≡◌, map, IfOk, length, ◌≤◌};
ghost use Rattle.plan_orders.specs.Operators.{operator_of};
ghost use Rattle.plan_orders.specs.TurnOrder.Turns.{turns_of};
ghost use Rattle.plan_data.specs.declared.plan.TheConstants.{CLIENT_LIMIT};
ghost use Rattle.plan_keys.specs.PlanKeys.{text_data, key_data};
ghost use Rattle.plan_reader.specs.Orders.{has_many_orders, few_orders, numbered_loss, faults_of, orders_of, order_data};
ghost use Rattle.plan_reader.specs.Refusals.{of_operator, of_turns};
ghost use Rattle.base_values.specs.Faults.{Answers};

use crate::fault::{PlanFault, PlanRefusal};
use crate::limits::{COMMAND_LIMIT, ORDER_LIMIT};
use base_script::{Commands, Loss};
use base_values::{Sequence, because};
use plan_data::{ActorRuns, Losses};
use plan_keys::{KeyRefusal, PlanKeys, PlanTexts};
use plan_orders::turn_order::{has_more_turns, read_turns};
use plan_orders::{has_more_commands, read_fault, read_operator};
use std::alloc::{AllocError, Global};

/// What is ordered beside the clients' scripts.
#[derive(Drop)]
pub struct Orders {
    /// The operator's commands.
    pub operator: Commands,
    /// The losses of sessions.
    pub faults: Losses,
    /// The order of turns that is asked for.
    pub turns: ActorRuns,
}

/// Whether there are more commands or more turns than a plan may have.
fn has_many_orders(alloc: Global, texts: &PlanTexts<'_>) -> Result<bool, AllocError>
    ensures { IfOk result (λ many. many ≡ has_many_orders (text_data texts.now)) }
{
    Ok(
        has_more_commands(alloc, COMMAND_LIMIT, texts.operator)?
            || has_more_turns(alloc, ORDER_LIMIT, texts.turns)?,
    )
}

/// The keys, where there are no more commands and turns than a plan may have.
pub fn few_orders<'a>(alloc: Global, keys: PlanKeys<'a>) -> Result<PlanKeys<'a>, PlanFault>
    requires { length keys.texts.clients.items ≤ CLIENT_LIMIT }
    ensures keys { Answers key_data result (few_orders (key_data keys.entry)) }
    ensures few { IfOk result (λ keys. length keys.texts.clients.items ≤ CLIENT_LIMIT) }
{
    if has_many_orders(alloc, &keys.texts)? {
        return Err(PlanFault::Refused(PlanRefusal::Keys(KeyRefusal::TooMany)));
    }
    Ok(keys)
}

fn operator_of(alloc: Global, text: &str) -> Result<Commands, PlanFault>
    ensures { Answers (λ commands. commands) result (of_operator (operator_of text.now)) }
{
    because(read_operator(alloc, text), PlanRefusal::Operator)
}

/// The loss of this number.
fn loss_of(alloc: Global, clients: u32, fault: u32, text: &str) -> Result<Loss, PlanFault>
    ensures { Answers (λ loss. loss) result (numbered_loss clients fault text.now) }
{
    because(
        read_fault(alloc, text, clients),
        |refusal| PlanRefusal::Fault { fault, refusal },
    )
}

fn faults_of(alloc: Global, clients: u32, texts: &[&str]) -> Result<Losses, PlanFault>
    ensures { Answers (λ losses. losses) result (faults_of clients (map (λ text. text.now) texts.now)) }
{
    let mut losses = Sequence::new(alloc);
    let mut fault: u32 = 1;
    for text in texts {
        let loss = loss_of(alloc, clients, fault, text)?;
        losses.push(loss)?;
        fault = fault.saturating_add(1);
    }
    Ok(losses)
}

fn turns_of(alloc: Global, clients: u32, text: &str) -> Result<ActorRuns, PlanFault>
    ensures { Answers (λ runs. runs) result (of_turns (turns_of clients text.now)) }
{
    because(read_turns(alloc, text, clients), PlanRefusal::Turn)
}

/// The orders of a plan with `clients` clients.
#[tactic(auto, unfolding(crate::specs::Orders::orders_of))]
pub fn orders_of(alloc: Global, clients: u32, texts: &PlanTexts<'_>) -> Result<Orders, PlanFault>
    ensures { Answers order_data result (orders_of clients (text_data texts.now)) }
{
    let operator = operator_of(alloc, texts.operator)?;
    let faults = faults_of(alloc, clients, texts.faults.as_slice())?;
    let turns = turns_of(alloc, clients, texts.turns)?;
    Ok(Orders {
        operator,
        faults,
        turns,
    })
}
