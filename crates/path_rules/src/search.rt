ghost use Rattle.std.specs.Prelude.{◌≡◌, Err, IfOk};
ghost use Rattle.paths.specs.Rules.{Says};
ghost use Rattle.paths.specs.Search.{IsReach};
ghost use Rattle.path_rules.specs.Frames.{frame_ways};
ghost use Rattle.path_rules.specs.Points.{item_of};
ghost use Rattle.path_rules.specs.Rules.{ways};
ghost use Rattle.path_rules.specs.Sites.{placed_in};
ghost use Rattle.path_search.specs.declared.rounds.Stop.TheVariants.{States};

use crate::frame::FramePoint;
use crate::frame_paths::FramePaths;
use path_search::{Stop, search};
use sqlite_items::Items;
use std::alloc::Global;

/// The points that the paths of a function come to, by their stack and tags, and the lowest item
/// where one or two paths break the rule.
pub fn search_frames(
    alloc: Global,
    paths: &FramePaths,
) -> Result<(Items<FramePoint>, Option<u32>), Stop>
    ensures reach { IfOk result (λ r. IsReach (frame_ways paths.now.modules.now (placed_in paths.now.owner.now paths.now.function.now) paths.now.rule) r.0) }
    ensures says { IfOk result (λ r. Says (ways paths.now.modules.now (placed_in paths.now.owner.now paths.now.function.now) paths.now.rule) item_of r.1) }
    ensures states { result ≡ Err States → ⊥ }
{
    let _ = &paths.rule;
    search(alloc, paths, paths.function.items.len(), None)
}
