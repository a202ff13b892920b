//! A text that is being written.
ghost use Rattle.std.specs.Prelude.{◌≡◌, ◌≤◌, length, [], OnOk};
ghost use Rattle.std.specs.Fmt.{decimal};
ghost use Rattle.hex.specs.Hex.{encode_lower};
ghost use Rattle.mm_base.specs.Numbers.{bytes_of_word};
ghost use Rattle.mm_text.specs.AddsInside.{Adds};
ghost use Rattle.mm_text.specs.RecordLines.{x16};
ghost use Rattle.mm_text.specs.Report.{bytes_text};
ghost use Rattle.mm_text.specs.VolumeLines.{x8};

use itoa::Buffer;
use mm_base::{Bytes, List, NoMemory};
use std::alloc::Global;
use std::marker::Model;

/// How many bytes are spelled at once.
const PIECE: usize = 32;

/// A text that grows at its end. Contracts see its bytes.
#[derive(Drop)]
pub struct Page {
    text: Bytes,
}

impl Model for Page {
    ghost use Rattle.std.specs.Prelude.{ℕ, List};

    ghost Value = { List ℕ };

    ghost view = { λ page. page.text };
}

impl Page {
    /// An empty text. It takes no memory.
    pub fn new(alloc: Global) -> Page
        ensures { result ≡ [] }
    {
        Page {
            text: List::new(alloc),
        }
    }

    /// The bytes of the text, moved and not copied.
    pub fn into_bytes(self) -> Bytes
        ensures { result ≡ self }
    {
        let Page { text } = self;
        text
    }

    /// Puts these bytes at the end as they are.
    pub fn put(&mut self, text: &[u8]) -> Result<(), NoMemory>
        ensures { OnOk result (Adds self.old text.now self.new) }
    {
        self.text.extend(text)
    }

    /// Puts this text at the end.
    pub fn put_text(&mut self, text: &str) -> Result<(), NoMemory>
        ensures { OnOk result (Adds self.old text.now self.new) }
    {
        self.text.extend(text.as_bytes())
    }

    /// Puts a number in decimal at the end.
    pub fn put_decimal(&mut self, number: u64) -> Result<(), NoMemory>
        ensures { OnOk result (Adds self.old (decimal number) self.new) }
    {
        let mut digits = Buffer::new();
        self.text.extend(digits.format(number).as_bytes())
    }

    /// Puts a word as sixteen hexadecimal digits at the end.
    #[tactic(auto, unfolding(crate::specs::RecordLines::x16))]
    pub fn put_x16(&mut self, word: u64) -> Result<(), NoMemory>
        ensures { OnOk result (Adds self.old (x16 word) self.new) }
    {
        let mut digits = [0; 16];
        let _ = hex::encode_to_slice(word.to_be_bytes(), &mut digits);
        self.text.extend(&digits)
    }

    /// Puts a number of 32 bits as eight hexadecimal digits at the end.
    #[tactic(auto, unfolding(crate::specs::VolumeLines::x8))]
    pub fn put_x8(&mut self, number: u32) -> Result<(), NoMemory>
        ensures { OnOk result (Adds self.old (x8 number) self.new) }
    {
        let mut digits = [0; 8];
        let _ = hex::encode_to_slice(number.to_be_bytes(), &mut digits);
        self.text.extend(&digits)
    }

    /// Puts bytes in hexadecimal at the end.
    pub fn put_hex(&mut self, bytes: &[u8]) -> Result<(), NoMemory>
        ensures { OnOk result (Adds self.old (encode_lower bytes.now) self.new) }
    {
        let mut left = bytes;
        while !left.is_empty() {
            let (piece, others) = left.split_at(left.len().min(PIECE));
            self.put_piece(piece)?;
            left = others;
        }
        Ok(())
    }

    /// Puts at most 32 bytes in hexadecimal at the end.
    fn put_piece(&mut self, piece: &[u8]) -> Result<(), NoMemory>
        requires { length piece.now ≤ 32 }
        ensures { OnOk result (Adds self.old (encode_lower piece.now) self.new) }
    {
        let mut room = [0; 2 * PIECE];
        let digits = &mut room[..2 * piece.len()];
        let _ = hex::encode_to_slice(piece, digits);
        self.text.extend(digits)
    }

    /// Puts the eight bytes of a word, the lowest first, in hexadecimal at the end.
    pub fn put_word(&mut self, word: u64) -> Result<(), NoMemory>
        ensures { OnOk result (Adds self.old (encode_lower (bytes_of_word word)) self.new) }
    {
        let mut digits = [0; 16];
        let _ = hex::encode_to_slice(word.to_le_bytes(), &mut digits);
        self.text.extend(&digits)
    }

    /// Puts bytes in hexadecimal at the end, or a dash where there are none.
    pub fn put_bytes(&mut self, bytes: &[u8]) -> Result<(), NoMemory>
        ensures { OnOk result (Adds self.old (bytes_text bytes.now) self.new) }
    {
        if bytes.is_empty() {
            self.put(b"-")
        } else {
            self.put_hex(bytes)
        }
    }
}
