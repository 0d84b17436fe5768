//! What a walk gives, and where a raise goes on.

use beam_code::HandlerKind;
use image_format::Descriptor;

/// The address of gate 0, where a return from the outermost call leads: behind it no frame waits.
pub const STOP_ADDRESS: u32 = 0x0100_0000;

/// A frame that waits: what is known of it, the address in bytes of its slot 0, and the words of
/// its slots, of which there is one at least.
#[derive(Clone, Copy)]
pub struct Frame<'a> {
    pub descriptor: &'a Descriptor,
    pub at: u32,
    pub slots: &'a [u32],
}

/// A return address, in bytes, that leads to no frame: nothing is known of it, or the frame does not lie in
/// the stack.
#[derive(Clone, Copy, PartialEq, Eq, Debug)]
pub struct Broken {
    pub ret: u32,
}

/// Where a raise goes on. Addresses are in bytes.
#[derive(Clone, Copy, PartialEq, Eq, Debug)]
pub enum Target {
    /// At the handler `at` of the frame at `sp`, which is of that kind and not `None`.
    Handler { at: u32, sp: u32, kind: HandlerKind },
    /// Nowhere: no frame has a handler.
    Uncaught,
    /// Nowhere: before any frame with a handler there is a return address that leads to no frame.
    Broken { ret: u32 },
}
