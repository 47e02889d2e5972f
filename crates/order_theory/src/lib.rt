// What the program of the crate `order` rests on: its steps as functions on tables, in specs/, and the theorem that they write the order.
#![tactic(auto)]

ghost use Rattle.order_theory.specs.Tables.{StepsWriteOrder};

/// The steps write the order.
pub fn steps_write_order_stands() -> u8
    ensures { StepsWriteOrder }
{
    0
}
