// Document 02, No. 1: the line of commands that are repeated until acknowledged, by value. Eight slots
// go in, and the eight come out with what goes out on the line.
#![tactic(auto)]

ghost use Rattle.std.specs.Prelude.{◌≡◌, Some, None, Ok, cond, true, [], ◌≤◌, length, option_map};
ghost use Rattle.standard.specs.Words.{first_of};
ghost use Rattle.standard.specs.Refusals.{refusal_number, number_in};
ghost use Rattle.commands.specs.Commands.{one_of_them, longest_command, flagged, padded, message_in, used, holds_one, way_number, ended_number, answer_of, says, quiet, after, goes_out, moved_up, ended_by, again, take_tests, placed, telling, take_of, tick_of, told_of};
ghost use Rattle.commands.specs.Commands.{ends, blank as Commands·blank, idle as Commands·idle, sound as Commands·sound, waiting as Commands·waiting};
ghost use Rattle.commands.specs.Places.{front_ok, behind_ok, each_behind, front};

use standard::Refusal;

// The longest of the 14 commands, 31h.
pub const LONGEST_COMMAND: usize = 13;

// A slot is used when its length is not 0.
#[repr(C)]
#[derive(Clone, Copy)]
pub struct Slot {
    pub length: u8,
    pub sent: u8,
    pub ticks: u8,
    pub message: [u8; LONGEST_COMMAND],
}

// The eight slots, oldest command first.
pub type Line = [Slot; 8];

// How the front ended: given up, or by a good 1Dh, 1Ch, 1Fh or 12h.
#[derive(Clone, Copy)]
pub enum Ended {
    GivenUp = 1,
    Acknowledged = 0x1D,
    Failed = 0x1C,
    Rejected = 0x1F,
    Replied = 0x12,
}

// What a call says that is not refused: how the front ended in it, if it did, and the message that
// goes out, of length 0 where none does.
#[derive(Clone, Copy)]
pub struct Sending {
    pub ended: Option<Ended>,
    pub length: u8,
    pub message: [u8; LONGEST_COMMAND],
}

// A call's answer, and the eight slots after it.
#[derive(Clone, Copy)]
pub struct Called {
    pub answer: Result<Sending, Refusal>,
    pub line: Line,
}

// ---- soundness

// "the 14 numbers"
#[tactic(auto, unfolding(crate::specs::Commands::one_of_them))]
fn one_of_them(number: u8) -> bool
    ensures { result ≡ one_of_them number }
{
    matches!(number, 0x29 | 0x2B | 0x2C | 0x31 | 0x34..=0x37 | 0x3A..=0x3F)
}

impl Slot {
    // "left all zero"
    const BLANK: Slot = Slot {
        length: 0,
        sent: 0,
        ticks: 0,
        message: [0; LONGEST_COMMAND],
    };

    fn is_used(&self) -> bool
        ensures { result ≡ used self.now }
    {
        self.length != 0
    }

    fn is_idle(&self) -> bool
        ensures { result ≡ Commands·idle self.now }
    {
        self.sent == 0 && self.ticks == 0
    }

    // The bytes of the message in it.
    fn held(&self) -> &[u8]
        requires { self.now.length ≤ longest_command }
        ensures value { result.now ≡ message_in self.now }
        ensures len { length result.now ≡ self.now.length }
    {
        &self.message[..self.length as usize]
    }

    // "holds a good one of the 14"
    #[tactic(auto, using(crate::proofs::Flag::good_length), unfolding(crate::specs::Commands::holds_one))]
    fn holds_one(&self) -> bool
        ensures { result ≡ holds_one self.now }
    {
        let Some(message) = self.message.get(..self.length as usize) else {
            return false;
        };
        messages::check(message).is_ok() && one_of_them(message[0] % 64)
    }

    // "only the first has been sent, one to four times, with 0 to 5 ticks counted"
    #[tactic(auto, unfolding(crate::specs::Places::front_ok))]
    fn is_sound_front(&self) -> bool
        ensures { result ≡ front_ok self.now }
    {
        if self.is_used() {
            matches!(self.sent, 1..=4) && self.ticks <= 5 && self.holds_one()
        } else {
            self.is_idle()
        }
    }

    // Any other slot, behind another.
    #[tactic(auto, unfolding(crate::specs::Places::behind_ok))]
    fn is_sound_behind(&self, before: &Slot) -> bool
        ensures { result ≡ behind_ok before.now self.now }
    {
        self.is_idle() && (!self.is_used() || before.is_used() && self.holds_one())
    }
}

// Each slot but the first is sound behind the one before it.
fn each_behind(line: &Line) -> bool
    ensures { result ≡ each_behind line.now }
{
    line.iter()
        .zip(line.iter().skip(1))
        .all(|(before, slot)| slot.is_sound_behind(before))
}

// "sound when .. the used ones stand first and each holds a good one of the 14"
#[tactic(auto, using(crate::proofs::Slotwise::front_decides, crate::proofs::Slotwise::others_decide))]
fn sound(line: &Line) -> bool
    ensures { result ≡ Commands·sound line.now }
{
    line[0].is_sound_front() && each_behind(line)
}

// How many commands wait.
#[tactic(auto, using(crate::proofs::Slotwise::counted))]
fn waiting(line: &Line) -> usize
    ensures { result ≡ Commands·waiting line.now }
{
    line.iter().filter(|slot| slot.is_used()).count()
}

// ---- answers

impl Sending {
    // No message goes out.
    fn silent(ended: Option<Ended>) -> Sending
        ensures { answer_of (Ok result) ≡ says 0 (ended_number ended) [] }
    {
        Sending {
            ended,
            length: 0,
            message: [0; LONGEST_COMMAND],
        }
    }
}

impl Called {
    // A refused call leaves every slot.
    fn refused(refusal: Refusal, line: Line) -> Called
        ensures { after (answer_of result.answer) result.line ≡ after (says (refusal_number refusal) 0 []) line }
    {
        Called {
            answer: Err(refusal),
            line,
        }
    }

    // Nothing goes out, and no front has ended.
    fn quiet(line: Line) -> Called
        ensures { after (answer_of result.answer) result.line ≡ after quiet line }
    {
        Called {
            answer: Ok(Sending::silent(None)),
            line,
        }
    }
}

// The message with its flag set, zeros beyond.
fn with_flag(message: &[u8]) -> [u8; LONGEST_COMMAND]
    requires in_bounds { 1 ≤ length message.now }
    requires message_len_bound { length message.now ≤ longest_command }
    ensures { result ≡ padded (flagged message.now) }
{
    let mut array = [0; LONGEST_COMMAND];
    array[..message.len()].copy_from_slice(message);
    array[0] |= 0x80;
    array
}

// ---- the front

// The front goes out, if there is one.
#[tactic(auto, using(crate::proofs::Held::goes_used, crate::proofs::Held::goes_unused))]
fn goes_out(ended: Option<Ended>, mut line: Line) -> Called
    requires sent_bound { (front line).sent ≤ 4 }
    requires length_le_longest_command { (front line).length ≤ longest_command }
    ensures { after (answer_of result.answer) result.line ≡ goes_out (ended_number ended) line }
{
    let front = line[0];
    if !front.is_used() {
        return Called {
            answer: Ok(Sending::silent(ended)),
            line,
        };
    }
    line[0] = Slot {
        sent: front.sent + 1,
        ticks: 0,
        ..front
    };
    let sending = Sending {
        ended,
        length: front.length,
        message: with_flag(front.held()),
    };
    Called {
        answer: Ok(sending),
        line,
    }
}

// How a message of that number ends the front: "It ends by a good 1D, 1C or 1F, and 34h and 35h also by a
// good 12h."
#[tactic(auto, unfolding(crate::specs::Commands::ends))]
fn end_by(front: u8, number: u8) -> Option<Ended>
    ensures { option_map way_number result ≡ cond (ends front number) (Some number) None }
{
    match number {
        0x1D => Some(Ended::Acknowledged),
        0x1C => Some(Ended::Failed),
        0x1F => Some(Ended::Rejected),
        0x12 if matches!(front, 0x34 | 0x35) => Some(Ended::Replied),
        _ => None,
    }
}

// A sound line in which a command waits, the front.
#[derive(Clone, Copy)]
struct Outstanding {
    line: Line,
    ghost sound: { Commands·sound line ≡ true },
    ghost used: { used (front line) ≡ true },
}

impl Outstanding {
    // Those behind the front move up, and the slot that the last of them leaves is all zero.
    fn moved_up(&self) -> Line
        ensures { result ≡ moved_up self.now.line }
    {
        let mut line = self.line;
        let used = waiting(&line);
        line.copy_within(1..used, 0);
        line[used - 1] = Slot::BLANK;
        line
    }

    // The front ended, and the next one goes out.
    #[tactic(auto, using(crate::proofs::Held::next_ready))]
    fn ended_by(&self, ended: Ended) -> Called
        ensures { after (answer_of result.answer) result.line ≡ ended_by (way_number ended) self.now.line }
    {
        goes_out(Some(ended), self.moved_up())
    }

    // "after four sendings the next 1Eh or sixth tick gives it up"
    #[tactic(auto, using(crate::proofs::Held::front_few))]
    fn sends_again(&self) -> Called
        ensures { after (answer_of result.answer) result.line ≡ again (front self.now.line) self.now.line }
    {
        if self.line[0].sent < 4 {
            goes_out(None, self.line)
        } else {
            self.ended_by(Ended::GivenUp)
        }
    }

    // A good message of that number was heard.
    fn hears(&self, number: u8) -> Called
        ensures { after (answer_of result.answer) result.line ≡ telling number self.now.line }
    {
        if let Some(ended) = end_by(self.line[0].message[0] % 64, number) {
            return self.ended_by(ended);
        }
        if number == 0x1E {
            return self.sends_again();
        }
        Called::quiet(self.line)
    }
}

// ---- the three calls

// Whether a command is taken, or why not: 22, 4, 6, 7, 8, 13, 14.
#[tactic(auto, using(crate::proofs::Flag::good_length, crate::proofs::Refusing::take_check, crate::proofs::Refusing::take_13, crate::proofs::Refusing::take_last))]
fn take_refusal(line: &Line, message: &[u8]) -> Result<(), Refusal>
    ensures { number_in result ≡ first_of (take_tests message.now line.now) }
{
    if !sound(line) {
        return Err(Refusal::SlotsNotSound);
    }
    messages::check(message)?;
    if !one_of_them(message[0] % 64) {
        return Err(Refusal::NoCommand);
    }
    if waiting(line) == 8 {
        return Err(Refusal::AllWaiting);
    }
    Ok(())
}

// The command behind those that wait.
fn place(mut line: Line, message: &[u8]) -> Line
    requires { first_of (take_tests message.now line) ≡ 0 }
    ensures { result ≡ placed message.now line }
{
    line[waiting(&line)] = Slot {
        length: message.len() as u8,
        sent: 0,
        ticks: 0,
        message: with_flag(message),
    };
    line
}

// A command is taken.
#[tactic(auto, using(crate::proofs::Held::first_placed, crate::proofs::Refusing::take_refused, crate::proofs::Refusing::take_runs))]
pub fn take(line: Line, message: &[u8]) -> Called
    ensures { after (answer_of result.answer) result.line ≡ take_of message.now line }
{
    if let Err(refusal) = take_refusal(&line, message) {
        return Called::refused(refusal, line);
    }
    let placed = place(line, message);
    if waiting(&line) == 0 {
        return goes_out(None, placed);
    }
    Called::quiet(placed)
}

// Half a second passes.
#[tactic(auto, using(crate::proofs::Ticking::refuses, crate::proofs::Ticking::idles, crate::proofs::Ticking::repeats, crate::proofs::Ticking::counts))]
pub fn tick(mut line: Line) -> Called
    ensures { after (answer_of result.answer) result.line ≡ tick_of line }
{
    if !sound(&line) {
        return Called::refused(Refusal::SlotsNotSound, line);
    }
    if !line[0].is_used() {
        return Called::quiet(line);
    }
    if 5 <= line[0].ticks {
        return Outstanding { line }.sends_again();
    }
    line[0].ticks += 1;
    Called::quiet(line)
}

// A message was heard.
#[tactic(auto, using(crate::proofs::Flag::good_length, crate::proofs::Held::tells_none, crate::proofs::Refusing::told_unsound, crate::proofs::Refusing::told_refused, crate::proofs::Refusing::told_runs))]
pub fn told(line: Line, message: &[u8]) -> Called
    ensures { after (answer_of result.answer) result.line ≡ told_of message.now line }
{
    if !sound(&line) {
        return Called::refused(Refusal::SlotsNotSound, line);
    }
    if let Err(refusal) = messages::check(message) {
        return Called::refused(refusal, line);
    }
    if !line[0].is_used() {
        return Called::quiet(line);
    }
    Outstanding { line }.hears(message[0] % 64)
}
