ghost use Rattle.beam_code.specs.declared.module.HandlerKind.{HandlerKind};
ghost use Rattle.image_format.specs.Fitting.{is_handler};
ghost use Rattle.image_format.specs.Cursor.{Gives, Reads, start};
ghost use Rattle.image_format.specs.Reading.{word_at, number_at, bytes_at, kind_at, end_at};
ghost use Rattle.image_format.specs.Rules.{exactly, at_most, at_least, within, code_count, kind_numbered, handler_of, mask_word};
ghost use Rattle.image_format.specs.Mask.{bit, numbers, is_slot};
ghost use Rattle.image_format.specs.Spelling.{padding};
ghost use Rattle.image_format.specs.declared.limits.TheConstants.{MOST_FRAME, MOST_IMAGE_BYTES};
ghost use Rattle.std.specs.Prelude.{◌≡◌, ◌<◌, ◌≤◌, ◌+◌, ◌*◌, ◌==◌, ◌||◌, not, IfOk, length};
ghost use Rattle.std.specs.List.{list_all};

use crate::{Flaw, FormatRefusal, MOST_CODE};
use beam_code::HandlerKind;
use byteorder::{BigEndian, ByteOrder};
use std::marker::Model;

/// Reads an image from left to right, and knows how many bytes it has read.
#[derive(Drop)]
pub(crate) struct Reader<'a> {
    rest: &'a [u8],
    at: u32,
}

impl<'a> Model for Reader<'a> {
    ghost use Rattle.std.specs.Prelude.{◌+◌, ◌≤◌, length};
    ghost use Rattle.image_format.specs.Cursor.{Cursor};
    ghost use Rattle.image_format.specs.declared.limits.TheConstants.{MOST_IMAGE_BYTES};

    ghost Value = { Cursor };

    ghost view = { λ r. record { rest = r.rest.now; at = r.at } };

    ghost invariant = { λ r. r.at + length r.rest.now ≤ MOST_IMAGE_BYTES };
}

/// How many zeros follow a text of this many bytes.
pub fn padding_of(len: usize) -> usize
    ensures { result ≡ padding len }
{
    (4 - len % 4) % 4
}

fn are_zeros(bytes: &[u8]) -> bool
    ensures { result ≡ list_all (λ b. b == 0) bytes.now }
{
    bytes.iter().all(|b| *b == 0)
}

fn kind_of(number: u32) -> HandlerKind
    ensures { result ≡ kind_numbered number }
{
    match number {
        0 => HandlerKind::None,
        1 => HandlerKind::Try,
        _ => HandlerKind::Catch,
    }
}

fn is_handler_of(kind: HandlerKind, handler: u32) -> bool
    ensures { result ≡ is_handler kind handler }
{
    match kind {
        HandlerKind::None => handler == 0,
        HandlerKind::Try => handler != 0,
        HandlerKind::Catch => handler != 0,
    }
}

/// Whether bit `j` of a word is set, counted from the lowest.
pub(crate) fn is_set(word: u32, j: u32) -> bool
    requires { j < 32 }
    ensures { result ≡ bit word j }
{
    (word >> j) % 2 == 1
}

/// Whether bit `j` of the `k`-th word of a mask is clear, or stands for a slot but slot 0.
fn is_mask_bit(frame: u32, k: u32, word: u32, j: u32) -> bool
    requires word { k ≤ MOST_FRAME }
    requires place { j < 32 }
    ensures { result ≡ not (bit word j) || is_slot frame (32 * k + j) }
{
    let slot = 32 * k + j;
    !is_set(word, j) || (slot != 0 && slot < frame)
}

/// Whether the bits of the `k`-th word of a mask stand for slots of the frame but slot 0.
fn is_mask_word(frame: u32, k: u32, word: u32) -> bool
    requires { k ≤ MOST_FRAME }
    ensures { result ≡ list_all (λ j. not (bit word j) || is_slot frame (32 * k + j)) (numbers 32 0) }
{
    for j in 0..32 {
        if !is_mask_bit(frame, k, word, j) {
            return false;
        }
    }
    true
}

impl<'a> Reader<'a> {
    pub(crate) fn new(bytes: &'a [u8]) -> Reader<'a>
        requires { length bytes.now ≤ MOST_IMAGE_BYTES }
        ensures { result ≡ start bytes.now }
    {
        Reader { rest: bytes, at: 0 }
    }

    #[tactic(auto, unfolding(crate::specs::Reading::word_at), using(crate::proofs::Widths::number_is))]
    pub(crate) fn word(&mut self) -> Result<u32, FormatRefusal>
        ensures { Reads (λ n. n) result self.new (word_at self.old) }
    {
        if self.rest.len() < 4 {
            return Err(Flaw::Short.at(self.at));
        }
        let (front, rest) = self.rest.split_at(4);
        self.rest = rest;
        self.at += 4;
        Ok(BigEndian::read_u32(front))
    }

    /// A number of one value.
    #[tactic(auto, unfolding(crate::specs::Reading::number_at))]
    pub(crate) fn exactly(&mut self, flaw: Flaw, value: u64) -> Result<u32, FormatRefusal>
        ensures { Reads (λ n. n) result self.new (number_at (exactly flaw value) self.old) }
    {
        let offset = self.at;
        let number = self.word()?;
        if number as u64 != value {
            return Err(flaw.at(offset));
        }
        Ok(number)
    }

    /// A number up to `most`.
    #[tactic(auto, unfolding(crate::specs::Reading::number_at))]
    pub(crate) fn at_most(&mut self, flaw: Flaw, most: usize) -> Result<u32, FormatRefusal>
        ensures { Reads (λ n. n) result self.new (number_at (at_most flaw most) self.old) }
    {
        let offset = self.at;
        let number = self.word()?;
        if number as usize > most {
            return Err(flaw.at(offset));
        }
        Ok(number)
    }

    /// A number from `least` on.
    #[tactic(auto, unfolding(crate::specs::Reading::number_at))]
    pub(crate) fn at_least(&mut self, flaw: Flaw, least: u64) -> Result<u32, FormatRefusal>
        ensures { Reads (λ n. n) result self.new (number_at (at_least flaw least) self.old) }
    {
        let offset = self.at;
        let number = self.word()?;
        if (number as u64) < least {
            return Err(flaw.at(offset));
        }
        Ok(number)
    }

    /// A number from `least` to `most`.
    #[tactic(auto, unfolding(crate::specs::Reading::number_at))]
    pub(crate) fn within(&mut self, flaw: Flaw, least: u32, most: u32) -> Result<u32, FormatRefusal>
        ensures read { Reads (λ n. n) result self.new (number_at (within flaw least most) self.old) }
        ensures most { IfOk result (λ n. n ≤ most) }
    {
        let offset = self.at;
        let number = self.word()?;
        if number < least || number > most {
            return Err(flaw.at(offset));
        }
        Ok(number)
    }

    /// How many code words there are, where native functions have `total`.
    #[tactic(auto, unfolding(crate::specs::Reading::number_at))]
    pub(crate) fn code_count(&mut self, total: u64) -> Result<u32, FormatRefusal>
        ensures { Reads (λ n. n) result self.new (number_at (code_count total) self.old) }
    {
        let offset = self.at;
        let number = self.word()?;
        if number > MOST_CODE {
            return Err(Flaw::Count.at(offset));
        }
        if number as u64 != total {
            return Err(Flaw::Value.at(offset));
        }
        Ok(number)
    }

    #[tactic(auto, unfolding(crate::specs::Reading::kind_at))]
    pub(crate) fn kind(&mut self) -> Result<HandlerKind, FormatRefusal>
        ensures { Reads (λ n. n) result self.new (kind_at self.old) }
    {
        let number = self.at_most(Flaw::Value, 2)?;
        Ok(kind_of(number))
    }

    /// The address of a handler of this kind.
    #[tactic(auto, unfolding(crate::specs::Reading::number_at))]
    pub(crate) fn handler(&mut self, kind: HandlerKind) -> Result<u32, FormatRefusal>
        ensures { Reads (λ n. n) result self.new (number_at (handler_of kind) self.old) }
    {
        let offset = self.at;
        let number = self.word()?;
        if !is_handler_of(kind, number) {
            return Err(Flaw::Value.at(offset));
        }
        Ok(number)
    }

    /// The `k`-th word of the mask of a frame.
    #[tactic(auto, unfolding(crate::specs::Reading::number_at))]
    pub(crate) fn mask_word(&mut self, frame: u32, k: u32) -> Result<u32, FormatRefusal>
        requires { k ≤ MOST_FRAME }
        ensures { Reads (λ n. n) result self.new (number_at (mask_word frame k) self.old) }
    {
        let offset = self.at;
        let number = self.word()?;
        if !is_mask_word(frame, k, number) {
            return Err(Flaw::Value.at(offset));
        }
        Ok(number)
    }

    /// That many bytes, without the zeros after them.
    #[tactic(auto, unfolding(crate::specs::Reading::bytes_at))]
    pub(crate) fn bytes(&mut self, len: u32) -> Result<&'a [u8], FormatRefusal>
        ensures { Reads (λ b. b.now) result self.new (bytes_at len self.old) }
    {
        let len = len as usize;
        let padded = len + padding_of(len);
        if self.rest.len() < padded {
            return Err(Flaw::Short.at(self.at));
        }
        let (front, rest) = self.rest.split_at(padded);
        let (text, zeros) = front.split_at(len);
        if !are_zeros(zeros) {
            return Err(Flaw::Value.at(self.at));
        }
        self.rest = rest;
        self.at += padded as u32;
        Ok(text)
    }

    /// How many bytes were read.
    pub(crate) fn offset(&self) -> u32
        ensures { result ≡ self.now.at }
    {
        self.at
    }

    /// No bytes are left.
    #[tactic(auto, unfolding(crate::specs::Reading::end_at))]
    pub(crate) fn end(&self) -> Result<(), FormatRefusal>
        ensures { Gives (λ n. n) result (end_at self.now) }
    {
        if self.rest.is_empty() {
            Ok(())
        } else {
            Err(Flaw::Long.at(self.at))
        }
    }
}
