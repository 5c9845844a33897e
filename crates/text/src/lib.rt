// The report that `nxread` prints, as bytes in a lent buffer. A function `put..` puts a part of it,
// all of it where there is room.
#![tactic(auto)]

ghost use Rattle.std.specs.Prelude.{◌≡◌, ◌≤◌, length};
ghost use mathlib.Core.List.{◌∷◌, flat_map};
ghost use Rattle.standard.specs.Refusals.{written_in};
ghost use Rattle.standard.specs.Framing.{two_digits};
ghost use Rattle.standard.specs.declared.Framing.TheVariants.{Binary};
ghost use Rattle.standard.specs.declared.Escapes.TheVariants.{Lenient};
ghost use Rattle.standard.specs.Judge.{carries_type};
ghost use Rattle.standard.specs.Stream.{handed_of};
ghost use Rattle.standard.specs.Replies.{reply_number};
ghost use Rattle.standard.specs.Table.{table_bytes, table_after};
ghost use Rattle.standard.specs.Overview.{group_numbers};
ghost use Rattle.standard.specs.Report.{most_read, report_of, Reported, type_text, reply_text, line_with, verdict_line, faulted_text, counts_line, group_line};
ghost use Rattle.puts.specs.Out.{Puts};
ghost use Rattle.text.specs.Lines.{handed_with, said_lines};

use puts::Out;
use reader::Mode;
use standard::{Escapes, Framing, Refusal, Reply, Verdict};

// "At most its first 65,536 bytes."
pub const MOST_READ: usize = 65536;

// The bytes of the longest report: a buffer has at least as many.
pub const LONGEST_REPORT: usize = 524447;

// A space and two hexadecimal digits.
fn put_hex(out: &mut Out, b: u8)
    ensures { Puts out.old (0x20 ∷ two_digits b) out.new }
{
    out.part(b" ");
    out.part(&standard::two_digits(b));
}

// "For 0, 6, 7, 8".
fn carries_type(verdict: u8) -> bool
    ensures { result ≡ carries_type verdict }
{
    matches!(verdict, 0 | 6..=8)
}

// "The type byte with bit 7 clear in two hex digits", or `--`, after a space.
fn put_type(out: &mut Out, verdict: Verdict)
    ensures { Puts out.old (0x20 ∷ type_text (handed_with verdict)) out.new }
{
    if carries_type(verdict.number) {
        put_hex(out, verdict.type_byte % 128);
    } else {
        out.part(b" --");
    }
}

// "Reply number in two hex digits or `--`", after a space.
fn put_reply(out: &mut Out, reply: Reply)
    ensures { Puts out.old (0x20 ∷ reply_text (reply_number reply)) out.new }
{
    match standard::reply_number(reply) {
        0 => out.part(b" --"),
        number => put_hex(out, number),
    }
}

// The line of a verdict, with its reply.
fn put_verdict(out: &mut Out, verdict: Verdict, reply: Reply)
    ensures { Puts out.old (line_with (handed_with verdict) (reply_number reply)) out.new }
{
    out.decimal(verdict.number);
    put_type(out, verdict);
    put_reply(out, reply);
    out.part(b"\n");
}

// The line of a verdict, where one was given.
fn put_said(out: &mut Out, said: Option<Verdict>, reply: Reply)
    ensures { Puts out.old (said_lines said (reply_number reply)) out.new }
{
    if let Some(verdict) = said {
        put_verdict(out, verdict, reply);
    }
}

// "For each verdict one line": the capture is heard once, into the table. "The old rule can be asked for;
// `nxread` and the technicians' captures now do." A turn uses as many bytes as the call says: a `while`.
fn put_verdicts(out: &mut Out, table: &mut [u8], capture: &[u8])
    requires { length table.old ≡ table_bytes }
    ensures put { Puts out.old (flat_map verdict_line (handed_of Lenient Binary capture.now)) out.new }
    ensures table_after { table.new ≡ table_after table.old (handed_of Lenient Binary capture.now) }
{
    let mut mode = Mode::Skipping(Framing::Binary);
    let mut held = 0;
    let mut frame = [0; reader::MOST];
    let mut used = 0;
    while used < capture.len() {
        let answer = host::listen(
            Escapes::Lenient,
            mode,
            held,
            &mut frame,
            table,
            &capture[used..],
        );
        mode = answer.mode;
        held = answer.held;
        used += answer.used;
        put_said(out, answer.said, answer.reply);
    }
}

// The faulted count after a space; "minus 9999 exists only in print".
fn put_faulted(out: &mut Out, heard: u8, faulted: u8)
    ensures { Puts out.old (0x20 ∷ faulted_text heard faulted) out.new }
{
    out.part(b" ");
    if heard == 0 {
        out.part(b"-9999");
    } else {
        out.decimal(faulted);
    }
}

// The line of a group.
fn put_group(out: &mut Out, group: u8, heard: u8, faulted: u8)
    ensures { Puts out.old (counts_line group heard faulted) out.new }
{
    out.decimal(group);
    out.part(b" ");
    out.decimal(heard);
    put_faulted(out, heard, faulted);
    out.part(b"\n");
}

// "Then a line for each group".
#[tactic(auto, using(crate::proofs::Groups::few))]
fn put_groups(out: &mut Out, table: &[u8])
    requires { length table.now ≡ table_bytes }
    ensures { Puts out.old (flat_map (group_line table.now) group_numbers) out.new }
{
    for index in 0..16 {
        let group = overview::group(table, index);
        put_group(out, index + 1, group.heard as u8, group.faulted as u8);
    }
}

// The report on a capture of which every byte counts.
fn put_report(out: &mut Out, capture: &[u8])
    requires { length capture.now ≤ most_read }
    ensures { Puts out.old (report_of capture.now) out.new }
{
    let mut table = table::fresh();
    put_verdicts(out, &mut table, capture);
    put_groups(out, &table);
}

// The report on a capture at the beginning of the buffer, and its length; or 9 and the buffer as it
// was, where it is shorter than the longest report.
pub fn report(capture: &[u8], out: &mut [u8]) -> Result<usize, Refusal>
    ensures { Reported capture.now out.old (written_in result) out.new }
{
    if out.len() < LONGEST_REPORT {
        return Err(Refusal::NoRoom);
    }
    let counted = &capture[..MOST_READ.min(capture.len())];
    let mut report = Out::new(out, 0);
    put_report(&mut report, counted);
    Ok(report.place())
}
