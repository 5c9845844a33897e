// A place in a lent buffer, so that text is made one part after another: each part is put at the
// place, which then is after it. A part that does not fit is not put at all, and the place stays.
#![tactic(auto)]

ghost use Rattle.std.specs.Prelude.{◌≡◌};
ghost use Rattle.standard.specs.Report.{decimal};
ghost use Rattle.puts.specs.Out.{PutsIfFits};

// The buffer and the place, which may be any: beyond the buffer's end no part fits.
#[derive(Drop)]
pub struct Out<'a> {
    buffer: &'a mut [u8],
    place: usize,
}

impl<'a> Out<'a> {
    pub fn new(buffer: &'a mut [u8], place: usize) -> Out<'a>
        ensures same_reference { result.buffer.ghost_name ≡ buffer.entry.ghost_name }
        ensures bytes { result.buffer.now ≡ buffer.old }
        ensures place { result.place ≡ place }
    {
        Out { buffer, place }
    }

    pub fn place(&self) -> usize
        ensures { result ≡ self.now.place }
    {
        self.place
    }

    // Bytes that stand ready.
    pub fn part(&mut self, bytes: &[u8])
        ensures { PutsIfFits self.old bytes.now self.new }
    {
        let end = self.buffer.len();
        if end < self.place || end - self.place < bytes.len() {
            return;
        }
        self.buffer[self.place..self.place + bytes.len()].copy_from_slice(bytes);
        self.place += bytes.len();
    }

    // A number below 100 in decimal; of a greater one the tens are one character all the same.
    pub fn decimal(&mut self, n: u8)
        ensures { PutsIfFits self.old (decimal n) self.new }
    {
        if n < 10 {
            self.part(&[b'0' + n]);
        } else {
            self.part(&[b'0' + n / 10, b'0' + n % 10]);
        }
    }
}
