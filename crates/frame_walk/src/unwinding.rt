//! The search for a handler.

ghost use Rattle.frame_walk.specs.Walk.{target_of, walk};
ghost use Rattle.std.specs.Prelude.{◌≡◌};

use crate::frame::Target;
use crate::walking::FrameWalk;
use beam_code::HandlerKind;
use native_link::Image;
use tagged_words::WordBlock;

/// Where a raise goes on that comes from the call which returns to `ret`, and whose frame is at `sp`: at the
/// handler of the first frame that has one, in either form.
pub fn unwind(image: &Image, stack: &WordBlock, ret: u32, sp: u32) -> Target
    ensures { result ≡ target_of (walk image.now.parts.descriptors stack.now ret sp) }
{
    for found in FrameWalk::new(image, stack, ret, sp) {
        match found {
            Err(broken) => return Target::Broken { ret: broken.ret },
            Ok(frame) => match frame.descriptor.kind {
                HandlerKind::None => {}
                kind => {
                    return Target::Handler {
                        at: frame.descriptor.handler,
                        sp: frame.at,
                        kind,
                    };
                }
            },
        }
    }
    Target::Uncaught
}
