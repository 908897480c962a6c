//! What is printed of a script of orders.

ghost use Rattle.std.specs.Prelude.{◌≡◌, ◌++◌, drop, string_bytes, OnOk};
ghost use Rattle.jt_order_command.specs.Texts.{answered_line, answered_text, full_line, orders_text, performed_line, performed_text, totals_line};

use jt_order::Performed;
use jt_order_play::OrderTotals;
use std::alloc::AllocError;
use std::fmt::Write;

#[tactic(auto, unfolding(crate::specs::Texts::performed_line))]
fn push_performed_line(text: &mut String, number: usize, outcome: u8) -> Result<(), AllocError>
    ensures { OnOk result
        (string_bytes text.new ≡ string_bytes text.old ++ performed_line number outcome) }
{
    write!(text, "order {number} performed {outcome}\n")
}

#[tactic(auto, unfolding(crate::specs::Texts::answered_line))]
fn push_answered_line(text: &mut String, number: usize, outcome: u8) -> Result<(), AllocError>
    ensures { OnOk result
        (string_bytes text.new ≡ string_bytes text.old ++ answered_line number outcome) }
{
    write!(text, "order {number} answered {outcome}\n")
}

// Puts the line of an order that was performed, unless it was before, when so many were.
fn push_performed(
    text: &mut String,
    before: usize,
    number: usize,
    performed: &Performed,
) -> Result<(), AllocError>
    ensures { OnOk result (string_bytes text.new
        ≡ string_bytes text.old ++ performed_text before number performed.now) }
{
    if before <= number {
        push_performed_line(text, number, performed.result)
    } else {
        Ok(())
    }
}

// Puts the line of the answer to the order of this number, if it is answered.
fn push_answered(text: &mut String, number: usize, results: &[u8]) -> Result<(), AllocError>
    ensures { OnOk result (string_bytes text.new
        ≡ string_bytes text.old ++ answered_text number (drop number results.now)) }
{
    if number < results.len() {
        push_answered_line(text, number, results[number])
    } else {
        Ok(())
    }
}

// Puts what happened to the order of this number.
#[tactic(auto, using(std::proofs::Common::append_assoc))]
fn push_order(
    text: &mut String,
    before: usize,
    number: usize,
    performed: &Performed,
    results: &[u8],
) -> Result<(), AllocError>
    ensures { OnOk result (string_bytes text.new ≡ string_bytes text.old
        ++ (performed_text before number performed.now
        ++ answered_text number (drop number results.now))) }
{
    push_performed(text, before, number, performed)?;
    push_answered(text, number, results)
}

/// Puts a line for each order that was performed behind so many, and for each that was answered behind so many, as it happened: an
/// order is performed only once all before it are answered, and answered only once it is performed.
pub(crate) fn push_behind(
    text: &mut String,
    performed: &[Performed],
    results: &[u8],
    before: usize,
    answered: usize,
) -> Result<(), AllocError>
    ensures { OnOk result (string_bytes text.new ≡ string_bytes text.old
        ++ orders_text before answered (drop answered performed.now)
        (drop answered results.now)) }
{
    let mut number = answered;
    while number < performed.len() {
        push_order(text, before, number, &performed[number], results)?;
        number += 1;
    }
    Ok(())
}

/// Puts how far the world came.
#[tactic(auto, unfolding(crate::specs::Texts::totals_line))]
pub(crate) fn push_totals(text: &mut String, totals: OrderTotals) -> Result<(), AllocError>
    ensures { OnOk result (string_bytes text.new ≡ string_bytes text.old
        ++ totals_line totals.issued totals.performed totals.answered) }
{
    let OrderTotals {
        issued,
        performed,
        answered,
    } = totals;
    write!(
        text,
        "issued={issued} performed={performed} answered={answered}\n"
    )
}

/// Puts that the book is full.
#[tactic(auto, unfolding(crate::specs::Texts::full_line))]
pub(crate) fn push_full(text: &mut String, limit: u64) -> Result<(), AllocError>
    ensures { OnOk result (string_bytes text.new ≡ string_bytes text.old ++ full_line limit) }
{
    write!(text, "order book full at {limit}\n")
}
