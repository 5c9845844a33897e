// Reads a binary capture on standard input, at most its first 65,536 bytes, and writes its report.
#![tactic(auto)]

ghost use Rattle.std.specs.Prelude.{◌≡◌, ◌≤◌, length, take, IfOk};
ghost use Rattle.standard.specs.Report.{report_of, longest_report};

use std::io;
use std::io::Read;

// Room for every report.
fn room() -> [u8; text::LONGEST_REPORT]
    ensures { longest_report ≡ length result }
{
    [0; text::LONGEST_REPORT]
}

// The whole report of a capture, at the beginning of a buffer that has room for every report.
fn tell(capture: &[u8], out: &mut [u8]) -> usize
    requires { longest_report ≤ length out.old }
    ensures out_after { take result out.new ≡ report_of capture.now }
    ensures prefix_len { result ≤ length out.new }
{
    text::report(capture, out).unwrap()
}

// Reads until the buffer is full or the input ends, and says how many bytes it put at its beginning:
// `read_exact` refuses an input that ends sooner, and `read_to_end` needs a heap.
fn read_full(from: &mut impl Read, out: &mut [u8]) -> io::Result<usize>
    ensures { IfOk result (λ n. n ≤ length out.new) }
{
    let mut done = 0;
    while done < out.len() {
        let n = from.read(&mut out[done..])?;
        if n == 0 {
            break;
        }
        done += n;
    }
    Ok(done)
}

fn main(rt: HostRuntime) -> io::Result<()> {
    let mut capture = [0; text::MOST_READ];
    let n = read_full(&mut rt.stdin(), &mut capture)?;
    let mut out = room();
    let k = tell(&capture[..n], &mut out);
    rt.write_all(&out[..k])
}
