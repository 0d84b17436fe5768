// The paths of a function by their stack and tags, as they are searched.

ghost use Rattle.std.specs.Prelude.{◌≡◌};
ghost use Rattle.path_rules.specs.Frames.{frame_item, frame_ways};
ghost use Rattle.path_rules.specs.Same.{by_item};
ghost use Rattle.path_rules.specs.Sites.{placed_in};

use crate::frame::FramePoint;
use crate::frame_paths::{FramePaths, is_apart};
use crate::same::same_point;
use path_search::Walk;
use sqlite_items::Items;
use std::alloc::{AllocError, Global};

impl Walk for FramePaths<'_> {
    type Point = FramePoint;

    ghost ways = { λ w. frame_ways w.modules.now (placed_in w.owner.now w.function.now) w.rule };

    ghost item_of = { λ w. frame_item };

    ghost number_of = { λ w. frame_item };

    fn start(&self, _alloc: Global) -> Result<FramePoint, AllocError> {
        Ok(self.start_point())
    }

    fn moves(&self, from: &FramePoint, to: &mut Items<FramePoint>) -> Result<(), AllocError> {
        self.moves_from(from, to)
    }

    fn breaks(&self, point: &FramePoint) -> bool {
        self.breaks_at(point)
    }

    fn splits(&self, a: &FramePoint, b: &FramePoint) -> bool {
        self.splits_at(a, b)
    }

    fn is_apart(&self, a: &FramePoint, b: &FramePoint) -> bool {
        is_apart(a, b)
    }

    #[tactic(auto, using(crate::specs::Same::frames_same, crate::specs::Same::frames_other))]
    fn is_same(&self, a: &FramePoint, b: &FramePoint) -> bool {
        same_point(a, b)
    }

    fn item(&self, point: &FramePoint) -> u32 {
        point.item
    }

    fn number(&self, point: &FramePoint) -> u64 {
        u64::from(point.item)
    }

    ghost by_item = { λ w. by_item w.modules.now (placed_in w.owner.now w.function.now) w.rule };
}
