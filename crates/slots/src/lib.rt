// The line of commands in memory that the host lends: thin functions over `commands`, which does the
// work by value. Where the slots are not eight, no slot is read: 22.
#![tactic(auto)]

ghost use Rattle.std.specs.Prelude.{◌≡◌, ◌≢◌, [], length};
ghost use Rattle.commands.specs.Commands.{answer_of, says, after, take_of, tick_of, told_of};
ghost use Rattle.commands.specs.declared.Called.{Called};

use commands::{Called, Line, Sending, Slot};
use standard::Refusal;

// The eight slots are copied out, handed to a call, and stored back as it leaves them.
fn on_line<F: FnOnce(Line) -> Called>(slots: &mut [Slot], call: F) -> Result<Sending, Refusal>
    requires { F.IsAlwaysCallable call }
    ensures others { length slots.old ≢ 8 → after (answer_of result) slots.new ≡ after (says 22 0 []) slots.old }
    ensures eight { length slots.old ≡ 8 → (called : Called) × F.post call slots.old called × (result ≡ called.answer) × (slots.new ≡ called.line) }
{
    let Ok(line) = Line::try_from(&*slots) else {
        return Err(Refusal::SlotsNotSound);
    };
    let called = call(line);
    slots.copy_from_slice(&called.line);
    called.answer
}

// A command is taken.
pub fn take(slots: &mut [Slot], message: &[u8]) -> Result<Sending, Refusal>
    ensures { after (answer_of result) slots.new ≡ take_of message.now slots.old }
{
    on_line(
        slots,
        |line|
            ensures { after (answer_of result.answer) result.line ≡ take_of message.entry.now line }
        { commands::take(line, message) },
    )
}

// Half a second passes.
pub fn tick(slots: &mut [Slot]) -> Result<Sending, Refusal>
    ensures { after (answer_of result) slots.new ≡ tick_of slots.old }
{
    on_line(slots, commands::tick)
}

// A message was heard.
pub fn told(slots: &mut [Slot], message: &[u8]) -> Result<Sending, Refusal>
    ensures { after (answer_of result) slots.new ≡ told_of message.now slots.old }
{
    on_line(
        slots,
        |line|
            ensures { after (answer_of result.answer) result.line ≡ told_of message.entry.now line }
        { commands::told(line, message) },
    )
}
