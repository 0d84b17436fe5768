//! The walk over frames.

ghost use Rattle.frame_walk.specs.Walk.{frame_in, frame_of, return_of, shown_frame, walk, walked_up, words_up};
ghost use Rattle.native_link.specs.Lookup.{descriptor_of};
ghost use Rattle.std.specs.Option.{option_map};
ghost use Rattle.std.specs.Prelude.{◌≡◌, ◌≤◌, drop, length};

use crate::frame::{Broken, Frame, STOP_ADDRESS};
use native_link::Image;
use std::marker::Model;
use tagged_words::WordBlock;

/// The frames from a call on, innermost first, to the outermost one or to a return address that leads to no frame.
/// Contracts see a walk as what it has still to give.
#[derive(Drop)]
pub struct FrameWalk<'a> {
    image: &'a Image,
    /// The address to which the next frame's call returns.
    ret: u32,
    /// The address of the next frame, and the words of the stack from there up.
    at: u32,
    words: &'a [u32],
}

impl<'a> Model for FrameWalk<'a> {
    ghost use Rattle.frame_walk.specs.Walk.{Found, walked_up};
    ghost use Rattle.std.specs.Prelude.{List};

    ghost Value = { List Found };

    ghost view = { λ w. walked_up w.image.now.parts.descriptors w.ret w.at w.words.now };
}

/// The words of the stack from an address up; none where no word lies there.
fn words_up(stack: &WordBlock, at: u32) -> &[u32]
    ensures { result.now ≡ words_up stack.now at }
{
    let end = stack.end();
    if at >= end {
        return &[];
    }
    match stack.slice(at, (end - at) / 4) {
        Some(words) => words,
        None => &[],
    }
}

/// The frame whose call returns to `ret`, where its slot 0 is the first of these words, at the address `at`.
fn frame_of<'a>(image: &'a Image, ret: u32, at: u32, words: &'a [u32]) -> Option<Frame<'a>>
    ensures { option_map shown_frame result ≡ frame_of image.now.parts.descriptors ret at words.now }
{
    let descriptor = image.find(ret)?;
    let size = descriptor.frame as usize;
    if size == 0 || size > words.len() {
        return None;
    }
    Some(Frame {
        descriptor,
        at,
        slots: &words[..size],
    })
}

/// The words behind so many of them.
fn behind(words: &[u32], count: u32) -> &[u32]
    requires { count ≤ length words.now }
    ensures { result.now ≡ drop count words.now }
{
    &words[count as usize..]
}

impl<'a> FrameWalk<'a> {
    /// The walk from the call that returns to `ret`, whose frame is at `sp`.
    pub fn new(image: &'a Image, stack: &'a WordBlock, ret: u32, sp: u32) -> FrameWalk<'a>
        ensures { result ≡ walk image.now.parts.descriptors stack.now ret sp }
    {
        FrameWalk {
            image,
            ret,
            at: sp,
            words: words_up(stack, sp),
        }
    }
}

impl<'a> Iterator for FrameWalk<'a> {
    ghost use Rattle.frame_walk.specs.Walk.{shown};
    ghost use Rattle.std.specs.Iterator.{YieldsFirstBy, item_count};

    type Item = Result<Frame<'a>, Broken>;

    ghost next_gives = { YieldsFirstBy shown (λ w. w) };

    ghost remaining = { item_count (λ w. w) };

    fn next(&mut self) -> Option<Result<Frame<'a>, Broken>> {
        let ret = self.ret;
        if ret == STOP_ADDRESS {
            return None;
        }
        let frame = frame_of(self.image, ret, self.at, self.words);
        match frame {
            None => {
                self.ret = STOP_ADDRESS;
                Some(Err(Broken { ret }))
            }
            Some(frame) => {
                let size = frame.descriptor.frame;
                self.ret = frame.slots[0].wrapping_add(8);
                self.at = self.at.wrapping_add(size.wrapping_mul(4));
                self.words = behind(self.words, size);
                Some(Ok(frame))
            }
        }
    }
}
