ghost use Rattle.std.specs.Iterator.{YieldsFirst, item_count};
ghost use Rattle.std.specs.Prelude.{◌≡◌, ◌<◌};
ghost use Rattle.roundfile.specs.Fields.{start_of, field, word, words_in, opening_of, post_of, comparator_of, default_number};
ghost use Rattle.roundfile.specs.Words.{words_left};

use crate::number::{u32_at, u64_at};
use std::marker::PhantomData;
use std::ops::Range;

// What a field is where its bit does not stand: an element is the one, whose code is 1.
const DEFAULT_NUMBER: u32 = 0;

const DEFAULT_ELEMENT: u32 = 1;

const DEFAULT_PLAN: u32 = 1;

const DEFAULT_SERVERS: u32 = 1;

// The fields of one record as they lie in the file: the map says which of them stand.
#[derive(Clone, Copy)]
pub struct Fields<'a> {
    pub(crate) map: u16,
    pub(crate) bytes: &'a [u8],
}

// The part of a file that holds the fields of one record; `T` is what they are read as.
#[derive(Clone, Copy)]
pub struct Part<'a, T> {
    pub(crate) fields: Fields<'a>,
    read_as: PhantomData<T>,
}

// Draws are not read as a value: they have as many words as the file says.
#[derive(Clone, Copy)]
pub struct Draws;

// The terms of a round.
#[derive(Clone, Copy)]
pub struct Opening {
    pub group: u32,
    pub plan: u32,
    pub wires: u32,
    pub servers: u32,
    pub key: u32,
}

// A posted ciphertext.
#[derive(Clone, Copy)]
pub struct Post {
    pub alpha: u32,
    pub beta: u32,
}

// One comparator's message: its two output ciphertexts, the proof of their product and the two
// branches of the proof that they are the inputs in one order or the other.
#[derive(Clone, Copy)]
pub struct Comparator {
    pub first_alpha: u32,
    pub first_beta: u32,
    pub second_alpha: u32,
    pub second_beta: u32,
    pub product_commitment: u32,
    pub product_response: u32,
    pub first_commitment: u32,
    pub second_commitment: u32,
    pub first_challenge: u32,
    pub second_challenge: u32,
    pub first_response: u32,
    pub second_response: u32,
}

impl Fields<'_> {
    // Where the bytes of the field begin, after those of the lower fields that stand; none where its bit does not
    // stand. Bit 0 is the lowest.
    fn start(self, bit: u32) -> Option<usize>
        requires { bit < 16 }
        ensures { result ≡ start_of self.entry.map bit }
    {
        if (self.map >> bit) % 2 == 1 {
            Some(4 * (self.map % (1 << bit)).count_ones() as usize)
        } else {
            None
        }
    }

    // The number in the field of a bit, or `default` where the bit does not stand.
    fn number_or(self, bit: u32, default: u32) -> u32
        requires { bit < 16 }
        ensures { result ≡ field self.entry.map self.entry.bytes.now bit default }
    {
        self.start(bit)
            .and_then(|start| u32_at(self.bytes, start))
            .unwrap_or(default)
    }
}

impl<'a, T> Part<'a, T> {
    pub(crate) fn new(fields: Fields<'a>) -> Part<'a, T>
        ensures { result.fields ≡ fields.entry }
    {
        Part {
            fields,
            read_as: PhantomData,
        }
    }
}

impl<'a, T: From<Fields<'a>>> Part<'a, T> {
    // What the fields say.
    pub fn values(self) -> T
        ensures { T.from_gives self.entry.fields result }
    {
        T::from(self.fields)
    }
}

impl From<Fields<'_>> for Opening {
    ghost from_gives = { λ fields opening. opening ≡ opening_of fields.map fields.bytes.now };

    fn from(fields: Fields<'_>) -> Opening {
        Opening {
            group: fields.number_or(0, DEFAULT_NUMBER),
            plan: fields.number_or(1, DEFAULT_PLAN),
            wires: fields.number_or(2, DEFAULT_NUMBER),
            servers: fields.number_or(3, DEFAULT_SERVERS),
            key: fields.number_or(4, DEFAULT_ELEMENT),
        }
    }
}

impl<'a> Part<'a, Draws> {
    // How many words there are.
    pub fn count(self) -> u32
        ensures { result ≡ field self.entry.fields.map self.entry.fields.bytes.now 0 default_number }
    {
        self.fields.number_or(0, DEFAULT_NUMBER)
    }

    // The word at `index`; none past the last.
    pub fn word(self, index: u32) -> Option<u64>
        ensures { result ≡ word self.entry.fields.bytes.now index }
    {
        u64_at(self.fields.bytes, 4 + 8 * index as usize)
    }

    // All words, from the first on.
    pub fn words(self) -> Words<'a>
        ensures { words_left result ≡ words_in self.entry.fields.map self.entry.fields.bytes.now }
    {
        Words {
            draws: self,
            indices: 0..self.count(),
        }
    }
}

// The words of draws, one after the other.
#[derive(Drop)]
pub struct Words<'a> {
    draws: Part<'a, Draws>,
    indices: Range<u32>,
}

impl Iterator for Words<'_> {
    type Item = u64;

    ghost next_gives = { YieldsFirst words_left };

    ghost remaining = { item_count words_left };

    fn next(&mut self) -> Option<u64> {
        let index = self.indices.next()?;
        // draws that were read have a word for each index below their count
        Some(self.draws.word(index).unwrap_or(0))
    }
}

impl From<Fields<'_>> for Post {
    ghost from_gives = { λ fields post. post ≡ post_of fields.map fields.bytes.now };

    fn from(fields: Fields<'_>) -> Post {
        Post {
            alpha: fields.number_or(0, DEFAULT_ELEMENT),
            beta: fields.number_or(1, DEFAULT_ELEMENT),
        }
    }
}

impl From<Fields<'_>> for Comparator {
    ghost from_gives = { λ fields comparator. comparator ≡ comparator_of fields.map fields.bytes.now };

    fn from(fields: Fields<'_>) -> Comparator {
        Comparator {
            first_alpha: fields.number_or(0, DEFAULT_ELEMENT),
            first_beta: fields.number_or(1, DEFAULT_ELEMENT),
            second_alpha: fields.number_or(2, DEFAULT_ELEMENT),
            second_beta: fields.number_or(3, DEFAULT_ELEMENT),
            product_commitment: fields.number_or(4, DEFAULT_ELEMENT),
            product_response: fields.number_or(5, DEFAULT_NUMBER),
            first_commitment: fields.number_or(6, DEFAULT_ELEMENT),
            second_commitment: fields.number_or(7, DEFAULT_ELEMENT),
            first_challenge: fields.number_or(8, DEFAULT_NUMBER),
            second_challenge: fields.number_or(9, DEFAULT_NUMBER),
            first_response: fields.number_or(10, DEFAULT_NUMBER),
            second_response: fields.number_or(11, DEFAULT_NUMBER),
        }
    }
}
