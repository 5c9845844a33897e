// The words of document 01 that code hands about, and the few numbers of theirs that more than one
// crate asks. What they mean stands in specs/, one file for each section of the document.
#![tactic(auto)]

ghost use Rattle.std.specs.Prelude.{◌≡◌, ◌<◌};
ghost use Rattle.standard.specs.Framing.{start_of, two_digits, digit};
ghost use Rattle.standard.specs.Refusals.{refusal_number, number_in};
ghost use Rattle.standard.specs.Replies.{reply_number};

// The longest message that is read: "Lengths 1 to 255 are now read".
pub const LONGEST: usize = 255;

// The longest of the 41 messages, 03h.
pub const LONGEST_KNOWN: usize = 18;

// The line's two framings.
#[derive(Clone, Copy)]
pub enum Framing {
    Binary,
    Ascii,
}

// The rule of escapes of a binary line: which byte may follow a 7Dh. Strict: one that needs an
// escape. Lenient, the old rule: any.
#[derive(Clone, Copy)]
pub enum Escapes {
    Strict,
    Lenient,
}

// Sum 1 and sum 2 of some bytes.
#[derive(Clone, Copy)]
pub struct Sums {
    pub one: u8,
    pub two: u8,
}

// A verdict and what goes with it: its number on the sheet, the type byte (0 unless the number is
// 0, 6, 7 or 8), and the length of the message handed out (0 unless the number is 0).
#[derive(Clone, Copy)]
pub struct Verdict {
    pub number: u8,
    pub type_byte: u8,
    pub length: u8,
}

// Why a call is refused: the rows of the printed sheet.
#[derive(Clone, Copy, Debug, PartialEq, Eq)]
pub enum Refusal {
    Length = 4,
    Unrecognised = 6,
    OtherLength = 7,
    Value = 8,
    NoRoom = 9,
    NoTable = 11,
    NotSound = 12,
    NoCommand = 13,
    AllWaiting = 14,
    BeyondLog = 16,
    LogNotSound = 17,
    NotKept = 18,
    SlotsNotSound = 22,
}

impl Refusal {
    // Its number on the sheet.
    pub fn number(self) -> u8
        ensures { result ≡ refusal_number self }
    {
        self as u8
    }
}

// The number of an answer: 0, or the refusal's.
pub fn number_of<T: Copy>(answer: Result<T, Refusal>) -> u8
    ensures { result ≡ number_in answer }
{
    match answer {
        Ok(_) => 0,
        Err(refusal) => refusal.number(),
    }
}

// What the host replies.
#[derive(Clone, Copy)]
pub enum Reply {
    Nothing = 0,
    Acknowledge = 0x1D,
    NegativeAcknowledge = 0x1E,
    Rejected = 0x1F,
}

// A share, or "not heard", which holds no number.
#[derive(Clone, Copy)]
pub enum Share {
    Share(f64),
    NotHeard,
}

// How many of some zones are heard, and how many of those are faulted.
#[derive(Clone, Copy)]
pub struct Counts {
    pub heard: u16,
    pub faulted: u16,
}

// The counts of a group or of the site, and their share.
#[derive(Clone, Copy)]
pub struct Group {
    pub heard: u16,
    pub faulted: u16,
    pub share: Share,
}

// The overview: all sixteen groups, and the site.
#[derive(Clone, Copy)]
pub struct Overview {
    pub groups: [Group; 16],
    pub site: Group,
}

// "Start 7Eh", "Start 0Ah".
pub fn start_of(framing: Framing) -> u8
    ensures { result ≡ start_of framing }
{
    match framing {
        Framing::Binary => 0x7E,
        Framing::Ascii => 0x0A,
    }
}

// "Every byte as two characters, high digit first, from 0-9 and A-F."
pub fn two_digits(b: u8) -> [u8; 2]
    ensures { result ≡ two_digits b }
{
    [digit(b / 16), digit(b % 16)]
}

fn digit(d: u8) -> u8
    requires { d < 16 }
    ensures { result ≡ digit d }
{
    if d < 10 { 48 + d } else { 55 + d }
}

// The number of the message that a reply is; 0: none.
pub fn reply_number(reply: Reply) -> u8
    ensures { result ≡ reply_number reply }
{
    reply as u8
}
