//! The lines on a router, which are put together before they go into a sink.

ghost use Rattle.std.specs.Prelude.{◌≡◌, ◌+◌, ◌<◌, ◌≤◌, ◌++◌, [], ◌∷◌, decimal, length};
ghost use Rattle.noc_files.specs.Labels.{label_text};
ghost use Rattle.noc_files.specs.Prelude.{comma, number_or};

use crate::label::{LABEL, Label};
use itoa::Buffer;
use std::marker::Model;

/// The most bytes of a page: the lines on all channels of a router.
pub(crate) const PAGE: usize = 114_688;

/// The most bytes of a number of 64 bits, and of one with a comma behind it.
pub(crate) const NUMBER: usize = 20;

pub(crate) const COLUMN: usize = NUMBER + 1;

/// Bytes that are put together, as many as there is room for.
#[derive(Drop)]
pub(crate) struct Page {
    bytes: [u8; PAGE],
    length: usize,
}

// A page is seen as its bytes.
impl Model for Page {
    ghost use Rattle.std.specs.Prelude.{◌≤◌, ℕ, List, take};
    ghost use Rattle.noc_files.specs.declared.page.TheConstants.{PAGE};

    ghost Value = { List ℕ };

    ghost view = { λ s. take s.length s.bytes };

    ghost invariant = { λ s. s.length ≤ PAGE };
}

impl Page {
    /// A page without bytes.
    pub(crate) fn new() -> Page
        ensures { result ≡ [] }
    {
        Page {
            bytes: [0; PAGE],
            length: 0,
        }
    }

    /// Takes all bytes off the page.
    pub(crate) fn clear(&mut self)
        ensures { self.new ≡ [] }
    {
        self.length = 0;
    }

    /// The bytes.
    pub(crate) fn text(&self) -> &[u8]
        ensures value { result.now ≡ self.now }
        ensures short { length self.now ≤ PAGE }
    {
        &self.bytes[..self.length]
    }

    /// Adds a piece of a line.
    #[inline(always)]
    pub(crate) fn add(&mut self, piece: &str)
        requires { length self.old + length piece.now ≤ PAGE }
        ensures added { self.new ≡ self.old ++ piece.now }
        ensures long { length self.new ≡ length self.old + length piece.now }
    {
        let end = self.length + piece.len();
        self.bytes[self.length..end].copy_from_slice(piece.as_bytes());
        self.length = end;
    }

    /// Adds a label, and leaves bytes behind it that are not on the page.
    #[inline(always)]
    pub(crate) fn add_label(&mut self, label: &Label)
        requires { length self.old + LABEL ≤ PAGE }
        ensures added { self.new ≡ self.old ++ label_text label.now }
        ensures short { length self.new ≤ length self.old + LABEL }
    {
        self.bytes[self.length..self.length + LABEL].copy_from_slice(&label.bytes);
        self.length += label.length;
    }

    /// Adds a byte.
    #[inline(always)]
    pub(crate) fn add_byte(&mut self, byte: u8)
        requires { length self.old < PAGE }
        ensures added { self.new ≡ self.old ++ byte ∷ [] }
        ensures long { length self.new ≡ length self.old + 1 }
    {
        self.bytes[self.length] = byte;
        self.length += 1;
    }

    /// Adds a number in decimal.
    #[inline(always)]
    pub(crate) fn add_number(&mut self, number: u64)
        requires { length self.old + NUMBER ≤ PAGE }
        ensures added { self.new ≡ self.old ++ decimal number }
        ensures short { length self.new ≤ length self.old + NUMBER }
    {
        if number < 100_000 {
            self.add_five(number as u32);
        } else {
            let mut digits = Buffer::new();
            self.add(digits.format(number));
        }
    }

    /// Adds a number in decimal, and a comma behind it.
    #[inline(always)]
    pub(crate) fn add_column(&mut self, number: u64)
        requires { length self.old + COLUMN ≤ PAGE }
        ensures added { self.new ≡ self.old ++ decimal number ++ comma }
        ensures short { length self.new ≤ length self.old + COLUMN }
    {
        self.add_number(number);
        self.add_byte(b',');
    }

    /// Adds a number in decimal, or a text where there is none.
    #[inline(always)]
    pub(crate) fn add_or(&mut self, number: Option<u64>, none: &str)
        requires room { length self.old + NUMBER ≤ PAGE }
        requires none { length none.now ≤ NUMBER }
        ensures added { self.new ≡ self.old ++ number_or number none.now }
        ensures short { length self.new ≤ length self.old + NUMBER }
    {
        match number {
            Some(number) => self.add_number(number),
            None => self.add(none),
        }
    }

    // Adds a number of one digit.
    #[inline(always)]
    fn add_digit(&mut self, number: u32)
        requires number { number < 10 }
        requires room { length self.old < PAGE }
        ensures added { self.new ≡ self.old ++ (48 + number) ∷ [] }
        ensures long { length self.new ≡ length self.old + 1 }
    {
        self.add_byte(b'0' + number as u8);
    }

    // Adds a number of at most two digits.
    #[inline(always)]
    fn add_two(&mut self, number: u32)
        requires number { number < 100 }
        requires room { length self.old + 2 ≤ PAGE }
        ensures added { self.new ≡ self.old ++ decimal number }
        ensures short { length self.new ≤ length self.old + 2 }
    {
        if number < 10 {
            self.add_digit(number);
        } else {
            self.add_digit(number / 10);
            self.add_digit(number % 10);
        }
    }

    // Adds a number of at most three digits.
    #[inline(always)]
    fn add_three(&mut self, number: u32)
        requires number { number < 1000 }
        requires room { length self.old + 3 ≤ PAGE }
        ensures added { self.new ≡ self.old ++ decimal number }
        ensures short { length self.new ≤ length self.old + 3 }
    {
        if number < 10 {
            self.add_digit(number);
        } else {
            self.add_two(number / 10);
            self.add_digit(number % 10);
        }
    }

    // Adds a number of at most four digits.
    #[inline(always)]
    fn add_four(&mut self, number: u32)
        requires number { number < 10_000 }
        requires room { length self.old + 4 ≤ PAGE }
        ensures added { self.new ≡ self.old ++ decimal number }
        ensures short { length self.new ≤ length self.old + 4 }
    {
        if number < 10 {
            self.add_digit(number);
        } else {
            self.add_three(number / 10);
            self.add_digit(number % 10);
        }
    }

    // Adds a number of at most five digits.
    #[inline(always)]
    fn add_five(&mut self, number: u32)
        requires number { number < 100_000 }
        requires room { length self.old + 5 ≤ PAGE }
        ensures added { self.new ≡ self.old ++ decimal number }
        ensures short { length self.new ≤ length self.old + 5 }
    {
        if number < 10 {
            self.add_digit(number);
        } else {
            self.add_four(number / 10);
            self.add_digit(number % 10);
        }
    }
}
