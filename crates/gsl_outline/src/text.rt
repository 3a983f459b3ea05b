//! What is printed of trees: words, with the line of each behind a colon.

use gsl_base::{Bytes, Code, Memory, Place};
use std::alloc::Global;

pub type Done = Result<(), Memory>;

/// A text that grows.
#[derive(Drop)]
pub struct Outline {
    alloc: Global,
    text: Bytes,
}

impl Outline {
    pub fn new(alloc: Global) -> Outline {
        Outline {
            alloc,
            text: Bytes::new(alloc),
        }
    }

    pub fn put(&mut self, text: &str) -> Done {
        self.text.extend_from_slice(text.as_bytes())
    }

    pub fn put_bytes(&mut self, bytes: &[u8]) -> Done {
        self.text.extend_from_slice(bytes)
    }

    pub fn number(&mut self, number: u64) -> Done {
        let digits = format!(in self.alloc; "{number}")?;
        self.put(digits.as_str())
    }

    /// A word as eight hexadecimal digits.
    pub fn hex_word(&mut self, word: u32) -> Done {
        let digits = format!(in self.alloc; "{word:08x}")?;
        self.put(digits.as_str())
    }

    pub fn hex_byte(&mut self, byte: u8) -> Done {
        let digits = format!(in self.alloc; "{byte:02x}")?;
        self.put(digits.as_str())
    }

    /// A fault code.
    pub fn code(&mut self, code: Code) -> Done {
        let number = code.number();
        let digits = format!(in self.alloc; "E{number:04}")?;
        self.put(digits.as_str())
    }

    /// A word of a tree, with its line.
    pub fn node(&mut self, word: &str, place: Place) -> Done {
        self.put(word)?;
        self.put(":")?;
        self.number(u64::from(place.line))
    }

    /// Begins a line so many steps to the right.
    pub fn indent(&mut self, steps: u32) -> Done {
        for _ in 0..steps {
            self.put("  ")?;
        }
        Ok(())
    }

    pub fn end_line(&mut self) -> Done {
        self.put("\n")
    }

    pub fn bytes(&self) -> &[u8] {
        self.text.as_slice()
    }
}
