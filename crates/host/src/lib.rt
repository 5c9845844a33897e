// The host: one call reads up to the first verdict, puts a good message into the table and says
// the reply. It is the one call that a unit's main loop makes.
#![tactic(auto)]

ghost use Rattle.std.specs.Prelude.{◌≡◌, ◌+◌, ◌≤◌, length, take, drop};
ghost use Rattle.standard.specs.Judge.{handed_in};
ghost use Rattle.standard.specs.Table.{table_after};
ghost use Rattle.host.specs.Hear.{Hears};

use reader::{Mode, Reader, Scanned};
use standard::{Escapes, Reply, Verdict};

// What one call gives.
#[derive(Clone, Copy)]
pub struct Hearing {
    pub reader: Reader,
    pub used: usize,
    pub said: Option<Verdict>,
    pub reply: Reply,
}

// What one call gives whose frame's bytes stand in lent memory.
#[derive(Clone, Copy)]
pub struct Listened {
    pub mode: Mode,
    pub held: usize,
    pub used: usize,
    pub said: Option<Verdict>,
    pub reply: Reply,
}

// A good message, which stands in the frame's bytes after the length byte, goes into the table.
#[tactic(auto, unfolding(standard::specs::Table::table_after))]
fn store(table: &mut [u8], verdict: Verdict, frame: &[u8])
    requires { verdict.number ≡ 0 → verdict.length + 1 ≤ length frame.now }
    ensures { table.new ≡ table_after table.old (handed_in (Some verdict) frame.now) }
{
    if verdict.number == 0 {
        let end = verdict.length as usize + 1;
        table::store(table, &frame[1..end]);
    }
}

// `hear` with the frame's bytes in lent memory, as `reader::scan` has them. Without a table the
// answer is 11: no byte is used, and there is no reply.
pub fn listen(
    escapes: Escapes,
    mode: Mode,
    held: usize,
    frame: &mut [u8],
    table: &mut [u8],
    bytes: &[u8],
) -> Listened
    ensures { Hears (record { mode = mode; held = held; bytes = frame.old; escapes = escapes }) table.old bytes.now (record { mode = result.mode; held = result.held; bytes = frame.new; escapes = escapes }) result.used result.said result.reply table.new }
{
    if let Err(refusal) = table::check(table) {
        return Listened {
            mode,
            held,
            used: 0,
            said: Some(Verdict {
                number: refusal.number(),
                type_byte: 0,
                length: 0,
            }),
            reply: Reply::Nothing,
        };
    }
    let Scanned {
        mode,
        held,
        used,
        said,
    } = reader::scan(escapes, mode, held, frame, bytes);
    let reply = match said {
        Some(verdict) => {
            store(table, verdict, frame);
            replies::reply(verdict.number, verdict.type_byte)
        }
        None => Reply::Nothing,
    };
    Listened {
        mode,
        held,
        used,
        said,
        reply,
    }
}

// Reads up to the first verdict, stores a good message, and says the reply.
pub fn hear(mut reader: Reader, table: &mut [u8], bytes: &[u8]) -> Hearing
    ensures { Hears reader table.old bytes.now result.reader result.used result.said result.reply table.new }
{
    let Listened {
        mode,
        held,
        used,
        said,
        reply,
    } = listen(
        reader.escapes,
        reader.mode,
        reader.held,
        &mut reader.bytes,
        table,
        bytes,
    );
    Hearing {
        reader: Reader {
            mode,
            held,
            ..reader
        },
        used,
        said,
        reply,
    }
}
