// Records of four lines, taken in byte by byte.
ghost use Rattle.std.specs.Prelude.{◌≡◌, is_some, IfSome};
ghost use Rattle.records.specs.Kept.{no_progress, fresh_reader, at_start, line_ended, byte_taken, remaining};
ghost use Rattle.records.specs.Kept.{field_bytes, is_whole, all_good};
ghost use Rattle.records.specs.Remembered.{Scanned};

use hexadecimal::line::{Line, count, feed, fresh};

// Which line of a record is at hand. With the last of them ended the record is whole.
#[derive(Clone, Copy, PartialEq, Eq)]
pub enum Stage {
    Key,
    Iv,
    Ad,
    Text,
    Whole,
}

// How far a record was read: which line is at hand, what was read of that line, and how many bytes each field has, once its line
// is ended. For a line that is not good, and for one that is not ended, there is no count.
#[derive(Clone, Copy)]
pub struct Progress {
    pub stage: Stage,
    pub line: Option<Line>,
    pub key: Option<usize>,
    pub iv: Option<usize>,
    pub ad: Option<usize>,
    pub text: Option<usize>,
}

// What is kept of a record while it is read: how far it was, and the bytes of its fields, each in front of a buffer. The buffers
// are lent, since the library has no heap: whoever reads records says where they lie.
#[derive(Drop)]
pub struct Reader<'a> {
    pub progress: Progress,
    pub key: &'a mut [u8; 4096],
    pub iv: &'a mut [u8; 4096],
    pub ad: &'a mut [u8; 4096],
    pub text: &'a mut [u8; 4096],
}

// The fields of a whole record.
#[derive(Clone, Copy)]
pub struct Record<'a> {
    pub key: &'a [u8],
    pub iv: &'a [u8],
    pub ad: &'a [u8],
    pub text: &'a [u8],
}

impl Progress {
    // In front of a record.
    pub fn new() -> Progress
        ensures { result ≡ no_progress }
    {
        Progress {
            stage: Stage::Key,
            line: fresh(),
            key: None,
            iv: None,
            ad: None,
            text: None,
        }
    }

    // The line at hand is ended.
    #[tactic(auto, unfolding(crate::specs::Kept::line_ended))]
    fn end_line(&mut self)
        ensures { self.new ≡ line_ended self.old }
    {
        let new_count = count(self.line);
        self.line = fresh();
        match self.stage {
            Stage::Key => {
                self.key = new_count;
                self.stage = Stage::Iv;
            }
            Stage::Iv => {
                self.iv = new_count;
                self.stage = Stage::Ad;
            }
            Stage::Ad => {
                self.ad = new_count;
                self.stage = Stage::Text;
            }
            Stage::Text | Stage::Whole => {
                self.text = new_count;
                self.stage = Stage::Whole;
            }
        }
    }
}

impl<'a> Reader<'a> {
    // A reader in front of a record, over buffers that hold whatever they do.
    pub fn new(
        key: &'a mut [u8; 4096],
        iv: &'a mut [u8; 4096],
        ad: &'a mut [u8; 4096],
        text: &'a mut [u8; 4096],
    ) -> Reader<'a>
        ensures { result ≡ fresh_reader key.entry iv.entry ad.entry text.entry }
    {
        Reader {
            progress: Progress::new(),
            key,
            iv,
            ad,
            text,
        }
    }

    // Puts the reader in front of a record. What the buffers hold stays.
    pub fn restart(&mut self)
        ensures { self.new ≡ at_start self.old }
    {
        self.progress = Progress::new();
    }

    // Takes in the chunk from index `at` on, up to the end of the next whole record or of the chunk, and says where it stopped.
    // A chunk and a place, and no slice of it, since what is promised here and above speaks of the place in the whole chunk.
    pub fn scan(&mut self, chunk: &[u8], at: usize) -> usize
        ensures { Scanned self.old chunk.now at self.new result }
    {
        for i in at..chunk.len() {
            self.take_byte(chunk[i]);
            if self.is_whole() {
                return i + 1;
            }
        }
        at.max(chunk.len())
    }

    // One byte more. A digit goes to the buffer of its field.
    #[tactic(auto, unfolding(crate::specs::Kept::byte_taken))]
    pub fn take_byte(&mut self, b: u8)
        ensures { self.new ≡ byte_taken self.old b }
    {
        if b == b'\n' {
            return self.progress.end_line();
        }
        let line = self.progress.line;
        self.progress.line = match self.progress.stage {
            Stage::Key => feed(self.key, line, b),
            Stage::Iv => feed(self.iv, line, b),
            Stage::Ad => feed(self.ad, line, b),
            Stage::Text | Stage::Whole => feed(self.text, line, b),
        };
    }

    // Whether a record is whole.
    pub fn is_whole(&self) -> bool
        ensures { result ≡ is_whole self.now.progress.stage }
    {
        self.progress.stage == Stage::Whole
    }

    // Whether any byte was read since the reader was last put in front of a record.
    #[tactic(auto, unfolding(crate::specs::Kept::remaining))]
    pub fn remains(&self) -> bool
        ensures { result ≡ remaining self.now }
    {
        self.progress.stage != Stage::Key || self.progress.line != fresh()
    }

    // The record that was read; `None` where a line of it is not good.
    pub fn record(&self) -> Option<Record<'_>>
        ensures some { is_some result ≡ all_good self.now }
        ensures key { IfSome result (λ r. r.key.now ≡ field_bytes self.now.progress.key self.now.key.now) }
        ensures iv { IfSome result (λ r. r.iv.now ≡ field_bytes self.now.progress.iv self.now.iv.now) }
        ensures ad { IfSome result (λ r. r.ad.now ≡ field_bytes self.now.progress.ad self.now.ad.now) }
        ensures text { IfSome result (λ r. r.text.now ≡ field_bytes self.now.progress.text self.now.text.now) }
    {
        Some(Record {
            key: good_bytes(self.key, self.progress.key)?,
            iv: good_bytes(self.iv, self.progress.iv)?,
            ad: good_bytes(self.ad, self.progress.ad)?,
            text: good_bytes(self.text, self.progress.text)?,
        })
    }
}

// The bytes of a good line that is ended, in front of a buffer; `None` where there is none. No clause bounds the count: the minimum
// keeps within the buffer whatever it is.
fn good_bytes(buffer: &[u8; 4096], ended: Option<usize>) -> Option<&[u8]>
    ensures some { is_some result ≡ is_some ended }
    ensures bytes { IfSome result (λ s. s.now ≡ field_bytes ended buffer.now) }
{
    let count = ended?;
    Some(&buffer[..count.min(4096)])
}
