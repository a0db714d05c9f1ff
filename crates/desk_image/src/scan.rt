// A text read byte by byte, in lines of one kind.
ghost use Rattle.std.specs.Prelude.{◌≡◌, ◌<◌, ℕ, List, [], if◌then◌else◌};
ghost use Rattle.desk_image.specs.Input.{clear};
ghost use Rattle.desk_image.specs.Pass.{Passed};
ghost use Rattle.desk_image.specs.Read.{AfterRead};
ghost use Rattle.desk_image.specs.Scan.{Reading, refusing, at_next_line, ended, scan_byte, begun, unfit_line, kept_by};

use characters::LINE_FEED;
use state::MEMORY_WORDS;
use std::io;

// Lines of one kind, of N bytes at most: a value is what those that were read have made beside the memory.
pub trait Lines<const N: usize>: Copy {
    // what lines make, the memory with it
    ghost Made: { Type 0 };

    // which lines are fit, and what a fit one makes
    ghost reading: { Reading Made };

    ghost made: { Self → List ℕ → Made };

    // Enters a line where it is fit, and answers whether it is.
    fn enter(&mut self, memory: &mut [u16; MEMORY_WORDS], line: &[u8]) -> bool
        ensures fit { result ≡ reading.fits line.now }
        ensures entered { made self.new memory.new
            ≡ (if result then reading.enter line.now (made self.old memory.old) else made self.old memory.old) };

    // no fit line is longer, and a line has room
    ghost most: { reading.most ≡ N };

    ghost some: { 0 < N };
}

// The place in the input: the line's number from 1 and the bytes read of it; the first line that was refused; and what the lines before it have made.
#[derive(Clone, Copy)]
pub struct Scanner<L, const N: usize> {
    pub line: u64,
    pub size: usize,
    pub bytes: [u8; N],
    pub refused: Option<u64>,
    pub made: L,
}

impl<L: Lines<N>, const N: usize> Scanner<L, N> {
    // A cleared memory, and the scanner of an empty text, where lines begin with what is given.
    pub fn begin(memory: &mut [u16; MEMORY_WORDS], made: L) -> Self
        ensures { kept_by L.made result memory.new ≡ record { line = 1; part = []; refused = None; made = L.made made clear } }
    {
        *memory = [0; MEMORY_WORDS];
        Scanner {
            line: 1,
            size: 0,
            bytes: [0; N],
            refused: None,
            made,
        }
    }

    // The line is unfit.
    fn refuse(&mut self)
        ensures { (memory : List ℕ) → kept_by L.made self.new memory ≡ refusing (kept_by L.made self.old memory) }
    {
        self.refused = Some(self.line);
    }

    // At the start of the next line.
    fn next_line(&mut self)
        ensures { (memory : List ℕ) → kept_by L.made self.new memory ≡ at_next_line (L.made self.old.made memory) (kept_by L.made self.old memory) }
    {
        self.line = std::num::wrapping_add_u64(self.line, 1);
        self.size = 0;
    }

    // The scanner and the memory after the line's LF.
    fn end_line(&mut self, memory: &mut [u16; MEMORY_WORDS])
        ensures { kept_by L.made self.new memory.new ≡ ended L.reading (kept_by L.made self.old memory.old) }
    {
        let line = characters::part(&self.bytes, 0, self.size);
        if self.made.enter(memory, line) {
            self.next_line();
        } else {
            self.refuse();
        }
    }

    // The scanner and the memory after one more byte.
    fn scan_byte(&mut self, memory: &mut [u16; MEMORY_WORDS], b: u8)
        ensures { kept_by L.made self.new memory.new ≡ scan_byte L.reading (kept_by L.made self.old memory.old) b }
    {
        if self.refused.is_some() {
            return;
        }
        if b == LINE_FEED {
            self.end_line(memory);
            return;
        }
        let size = self.size;
        if size < N {
            self.bytes[size] = b;
            self.size = size + 1;
        } else {
            self.refuse();
        }
    }

    // The scanner and the memory after the bytes of a chunk: those of a text that goes on with it.
    pub fn scan(&mut self, memory: &mut [u16; MEMORY_WORDS], chunk: &[u8])
        ensures { Passed (scan_byte L.reading) (begun L.reading) (kept_by L.made self.old memory.old) chunk.now (kept_by L.made self.new memory.new) }
    {
        for &b in chunk {
            self.scan_byte(memory, b);
        }
    }

    // The scanner and the memory after a read that left the buffer as it is: after the bytes that were read, and no others. Answers as the read did.
    pub fn after_read(
        &mut self,
        memory: &mut [u16; MEMORY_WORDS],
        read: io::Result<usize>,
        buffer: &[u8],
    ) -> io::Result<usize>
        ensures { AfterRead (scan_byte L.reading) (begun L.reading) (kept_by L.made self.old memory.old) read buffer.now
            (kept_by L.made self.new memory.new) result }
    {
        let n = read?;
        self.scan(memory, characters::part(buffer, 0, n));
        Ok(n)
    }

    // The number of the first unfit line of a text that ends here: a line that has begun lacks its LF.
    pub fn unfit_line(&self) -> Option<u64>
        ensures { (memory : List ℕ) → result ≡ unfit_line (kept_by L.made self.now memory) }
    {
        if self.refused.is_some() {
            self.refused
        } else if self.size != 0 {
            Some(self.line)
        } else {
            None
        }
    }
}
