// The reader: a byte goes in, the next reader and at most one verdict come out. It is a value; a
// read goes up to and including the first verdict's byte, or to the end.
#![tactic(auto)]

ghost use Rattle.std.specs.Prelude.{◌≡◌, true, [], ◌∷◌, ◌++◌, ◌+◌, ◌≤◌, length, get_or};
ghost use Rattle.std.proofs.Math.Option.{some};
ghost use Rattle.standard.specs.declared.Framing.TheVariants.{Binary, Ascii};
ghost use Rattle.standard.specs.declared.Escapes.{Escapes};
ghost use Rattle.standard.specs.declared.Escapes.TheVariants.{Strict, Lenient};
ghost use Rattle.standard.specs.Messages.{longest};
ghost use Rattle.standard.specs.Framing.{may_follow, value_of};
ghost use Rattle.standard.specs.Judge.{handing};
ghost use Rattle.reader.specs.declared.Mode.TheVariants.{Skipping, Open, Escape, Digit};
ghost use Rattle.reader.specs.Step.{beyond_length, pending_ok, sound_with, framing_of, goes, ends, takes, takes_binary, takes_character, takes_digit, takes_escaped};
ghost use Rattle.reader.specs.Read.{sound_reader, fresh_reader, Reads, Steps, Lent};
ghost use Rattle.reader.specs.Decide.{kept_by, step_in, opens_in, skipped_in, Always, ForHeld, Decides, Judges, TakesIn};

pub use frames::MOST;
use frames::Taken;
use standard::{Escapes, Framing, Verdict};

// Between frames, in a frame, after a 7Dh (binary), or with a high digit pending (ASCII).
#[derive(Clone, Copy)]
pub enum Mode {
    Skipping(Framing),
    Open(Framing),
    Escape,
    Digit(u8),
}

// How many recovered bytes are held, and where: the first `held` of `bytes`. After a verdict 0 the
// message stands in `bytes` after the length byte. The rule of escapes stays as it was made.
#[derive(Clone, Copy)]
pub struct Reader {
    pub mode: Mode,
    pub held: usize,
    pub bytes: [u8; MOST],
    pub escapes: Escapes,
}

// What one byte gives.
#[derive(Clone, Copy)]
pub struct Stepped {
    pub reader: Reader,
    pub said: Option<Verdict>,
}

// What a read gives.
#[derive(Clone, Copy)]
pub struct Reading {
    pub reader: Reader,
    pub used: usize,
    pub said: Option<Verdict>,
}

// What a scan gives: a read whose frame's bytes stand in lent memory.
#[derive(Clone, Copy)]
pub struct Scanned {
    pub mode: Mode,
    pub held: usize,
    pub used: usize,
    pub said: Option<Verdict>,
}

// No verdict, one that needs no look at the frame's bytes, or the judgement of the whole frame.
#[derive(Clone, Copy)]
enum Outcome {
    Nothing,
    Number(u8),
    Judgement,
}

// What a byte decides: the mode and how many bytes are held after it, the byte of the frame that is
// kept, if one is, and the outcome. The array stays with the loop, which would be many times slower
// if every decision handed it on.
#[derive(Clone, Copy)]
struct Decision {
    mode: Mode,
    held: usize,
    keep: Option<u8>,
    outcome: Outcome,
}

impl Decision {
    // Nothing of the frame is recovered.
    fn goes(mode: Mode, held: usize) -> Decision
        ensures { ForHeld held result (goes mode) }
    {
        Decision {
            mode,
            held,
            keep: None,
            outcome: Outcome::Nothing,
        }
    }

    // A verdict that hands out nothing: no byte is held any more, and those of its frame stay.
    fn says(framing: Framing, number: u8) -> Decision
        ensures { Always result (ends framing (handing number [])) }
    {
        Decision {
            mode: Mode::Skipping(framing),
            held: 0,
            keep: None,
            outcome: Outcome::Number(number),
        }
    }

    // The judgement of the whole frame, with the byte that is kept: "Binary at the last sum byte,
    // ASCII at the stop place".
    fn judges(framing: Framing, keep: Option<u8>) -> Decision
        ensures { Judges framing result (kept_by keep) }
    {
        Decision {
            mode: Mode::Skipping(framing),
            held: 0,
            keep,
            outcome: Outcome::Judgement,
        }
    }
}

impl Mode {
    fn framing(self) -> Framing
        ensures { result ≡ framing_of self }
    {
        match self {
            Mode::Skipping(framing) | Mode::Open(framing) => framing,
            Mode::Escape => Framing::Binary,
            Mode::Digit(_) => Framing::Ascii,
        }
    }

    // A start: "Where 1 is given, the same byte opens the next frame."
    fn opens(self) -> Decision
        ensures { Always result (opens_in self) }
    {
        Decision {
            mode: Mode::Open(self.framing()),
            held: 0,
            keep: None,
            outcome: match self {
                Mode::Skipping(_) => Outcome::Nothing,
                _ => Outcome::Number(1),
            },
        }
    }

    // How many bytes a sound state may hold beyond the length L.
    fn beyond_length(self) -> usize
        ensures { result ≡ beyond_length self }
    {
        match self {
            Mode::Skipping(Framing::Ascii) | Mode::Open(Framing::Ascii) => 3,
            _ => 2,
        }
    }

    // "A pending digit must be at most 15."
    fn pending_ok(self) -> bool
        ensures { result ≡ pending_ok self }
    {
        match self {
            Mode::Digit(d) => d <= 15,
            _ => true,
        }
    }

    // A state that holds `held` bytes, of which `first` is the first.
    fn sound(self, held: usize, first: u8) -> bool
        ensures { result ≡ sound_with self held first }
    {
        let fits = frames::length_ok(first) && held <= first as usize + self.beyond_length();
        (held == 0 || fits) && self.pending_ok()
    }

    // "After a verdict everything up to the next start is skipped; bytes before the first start give
    // nothing": a read passes over them before it decides on one.
    fn skipped(self, bytes: &[u8]) -> usize
        ensures { result ≡ skipped_in self bytes.now }
    {
        match self {
            Mode::Skipping(framing) => frames::before_start(bytes, standard::start_of(framing)),
            _ => 0,
        }
    }

    // The plain bytes that an open frame takes at once; none in any other mode.
    fn take(self, held: usize, frame: &mut [u8], bytes: &[u8]) -> Taken
        ensures { TakesIn self held frame.old bytes.now result frame.new }
    {
        match self {
            Mode::Open(framing) => frames::take_plain(framing, held, frame, bytes),
            _ => Taken { count: 0, used: 0 },
        }
    }
}

// How many bytes of a frame are held, and the first of them, if there is one.
#[derive(Clone, Copy)]
struct Front {
    held: usize,
    first: u8,
    ghost room: { held ≤ longest + 3 },
}

impl Front {
    // A recovered byte is held.
    fn holds(self, framing: Framing, byte: u8) -> Decision
        ensures { ForHeld self.held result (λ bytes. goes (Open framing) (bytes ++ (byte ∷ []))) }
    {
        Decision {
            mode: Mode::Open(framing),
            held: self.held + 1,
            keep: Some(byte),
            outcome: Outcome::Nothing,
        }
    }

    // A recovered byte: the length, or one after it, of which the last sum decides in binary.
    fn takes(self, framing: Framing, x: u8) -> Decision
        ensures { Decides self.held self.first result (λ bytes. takes framing bytes x) }
    {
        if self.held == 0 {
            return if frames::length_ok(x) {
                self.holds(framing, x)
            } else {
                Decision::says(framing, 4)
            };
        }
        let last = self.first as usize + 2 <= self.held;
        match framing {
            Framing::Binary if last => Decision::judges(framing, Some(x)),
            _ => self.holds(framing, x),
        }
    }

    // A byte in a binary frame.
    fn binary(self, b: u8) -> Decision
        ensures { Decides self.held self.first result (λ bytes. takes_binary bytes b) }
    {
        if b == 0x7D {
            Decision::goes(Mode::Escape, self.held)
        } else {
            self.takes(Framing::Binary, b)
        }
    }

    // A byte after a 7Dh: 15 comes "before 4 at the same byte".
    fn escaped(self, escapes: Escapes, after: u8) -> Decision
        ensures { Decides self.held self.first result (λ bytes. takes_escaped escapes bytes after) }
    {
        if may_follow(escapes, after) {
            self.takes(Framing::Binary, after ^ 0x20)
        } else {
            Decision::says(Framing::Binary, 15)
        }
    }

    // A byte in an ASCII frame with no digit pending: the stop, where it is due, or a high digit.
    #[tactic(auto, unfolding(standard::specs::Judge::whole_of))]
    fn character(self, b: u8) -> Decision
        ensures { Decides self.held self.first result (λ bytes. takes_character bytes b) }
    {
        if self.first as usize + 3 <= self.held {
            if b == 0x0D {
                return Decision::judges(Framing::Ascii, None);
            }
            return Decision::says(Framing::Ascii, 3);
        }
        match frames::digit(b) {
            Some(d) => Decision::goes(Mode::Digit(d), self.held),
            None => Decision::says(Framing::Ascii, 2),
        }
    }

    // "Every byte as two characters, high digit first."
    fn low_digit(self, high: u8, b: u8) -> Decision
        requires { high ≤ 15 }
        ensures { Decides self.held self.first result (λ bytes. takes_digit (some high) bytes (value_of b)) }
    {
        match frames::digit(b) {
            Some(d) => self.takes(Framing::Ascii, high * 16 + d),
            None => Decision::says(Framing::Ascii, 2),
        }
    }
}

// "7Dh followed by a byte other than 5Eh, 5Dh or 7Eh"; the last is asked before.
fn may_follow(escapes: Escapes, b: u8) -> bool
    ensures { result ≡ may_follow escapes b }
{
    match escapes {
        Escapes::Strict => b == 0x5E || b == 0x5D,
        Escapes::Lenient => true,
    }
}

// One byte. "A 7Eh on the line always starts a new frame, also right after 7Dh."
#[tactic(auto, unfolding(crate::specs::Step::step_of))]
fn decide(escapes: Escapes, mode: Mode, front: Front, b: u8) -> Decision
    requires { pending_ok mode ≡ true }
    ensures { Decides front.held front.first result (step_in escapes mode b) }
{
    if b == standard::start_of(mode.framing()) {
        return mode.opens();
    }
    match mode {
        Mode::Skipping(_) => Decision::goes(mode, front.held),
        Mode::Open(Framing::Binary) => front.binary(b),
        Mode::Open(Framing::Ascii) => front.character(b),
        Mode::Escape => front.escaped(escapes, b),
        Mode::Digit(high) => front.low_digit(high, b),
    }
}

// ---- a read

// The read of a sound state: plain bytes of an open frame are taken at once, and every other byte
// is decided on its own. A turn uses as many bytes as it finds, and their number is an answer: so
// they are counted.
fn go(escapes: Escapes, mut mode: Mode, mut held: usize, frame: &mut [u8], bytes: &[u8]) -> Scanned
    requires frame_len { length frame.old ≡ longest + 3 }
    requires frame_value { sound_with mode held (get_or frame.old 0 0) ≡ true }
    ensures { Reads (record { mode = mode; held = held; bytes = frame.old; escapes = escapes }) bytes.now (record { mode = result.mode; held = result.held; bytes = frame.new; escapes = escapes }) result.used result.said }
{
    let mut used = mode.skipped(bytes);
    while used < bytes.len() {
        let front = Front {
            held,
            first: frame[0],
        };
        let decision = decide(escapes, mode, front, bytes[used]);
        if let Some(byte) = decision.keep {
            frame[held] = byte;
        }
        used += 1;
        mode = decision.mode;
        held = decision.held;
        // Each verdict returns on its own, for speed: joined, and with the tests of the length byte
        // in `takes` joined, a read took 2 to 8 per cent more instructions.
        match decision.outcome {
            Outcome::Nothing => {
                let taken = mode.take(held, frame, &bytes[used..]);
                held += taken.count;
                used += taken.used;
            }
            Outcome::Number(number) => {
                let said = frames::plain(number);
                return Scanned {
                    mode,
                    held,
                    used,
                    said,
                };
            }
            Outcome::Judgement => {
                let said = frames::judge(frame);
                return Scanned {
                    mode,
                    held,
                    used,
                    said,
                };
            }
        }
    }
    Scanned {
        mode,
        held,
        used,
        said: None,
    }
}

// A read with the frame's bytes in lent memory. Where it is not as long as a reader's array the
// answer is 12, as for a state that is not sound.
#[tactic(auto, using(crate::proofs::Functions::CodeLoop::lent_other, crate::proofs::Functions::CodeLoop::lent_unsound))]
pub fn scan(escapes: Escapes, mode: Mode, held: usize, frame: &mut [u8], bytes: &[u8]) -> Scanned
    ensures { Lent (record { mode = mode; held = held; bytes = frame.old; escapes = escapes }) bytes.now (record { mode = result.mode; held = result.held; bytes = frame.new; escapes = escapes }) result.used result.said }
{
    if frame.len() != MOST || !mode.sound(held, frame[0]) {
        return Scanned {
            mode,
            held,
            used: 0,
            said: frames::plain(12),
        };
    }
    go(escapes, mode, held, frame, bytes)
}

// Up to and including the first verdict's byte, or to the end. A state that is not sound is handed
// back with 12.
pub fn read(mut reader: Reader, bytes: &[u8]) -> Reading
    ensures { Reads reader bytes.now result.reader result.used result.said }
{
    let Scanned {
        mode,
        held,
        used,
        said,
    } = scan(
        reader.escapes,
        reader.mode,
        reader.held,
        &mut reader.bytes,
        bytes,
    );
    Reading {
        reader: Reader {
            mode,
            held,
            ..reader
        },
        used,
        said,
    }
}

impl Reader {
    // A reader that has seen nothing.
    fn fresh_by(escapes: Escapes, framing: Framing) -> Reader
        ensures { result ≡ fresh_reader escapes framing }
    {
        let mode = Mode::Skipping(framing);
        Reader {
            mode,
            held: 0,
            bytes: [0; MOST],
            escapes,
        }
    }

    // "A reader made without saying otherwise is now strict."
    pub fn fresh(framing: Framing) -> Reader
        ensures { result ≡ fresh_reader Strict framing }
    {
        Reader::fresh_by(Escapes::Strict, framing)
    }

    // "The old rule can be asked for."
    pub fn fresh_lenient(framing: Framing) -> Reader
        ensures { result ≡ fresh_reader Lenient framing }
    {
        Reader::fresh_by(Escapes::Lenient, framing)
    }

    // Whether document 01 calls the state sound; any other is refused with 12.
    pub fn sound(self) -> bool
        ensures { result ≡ sound_reader self }
    {
        self.mode.sound(self.held, self.bytes[0])
    }

    // A read of one byte.
    pub fn step(self, b: u8) -> Stepped
        ensures { Steps self b result.reader result.said }
    {
        let Reading { reader, said, .. } = read(self, &[b]);
        Stepped { reader, said }
    }
}
