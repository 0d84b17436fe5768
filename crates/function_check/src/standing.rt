ghost use Rattle.std.specs.Prelude.{◌≡◌, List, IfOk, map, option_map};
ghost use Rattle.beam_code.specs.declared.module.Module.{Module};
ghost use Rattle.beam_code.specs.Function.{Placed};
ghost use Rattle.path_rules.specs.Sites.{AreSites};
ghost use Rattle.function_check.specs.Standings as spec;

use beam_code::HandlerKind;
use path_rules::{Frame, Sites, Tag, TagKind};
use sqlite_items::Items;
use std::alloc::{AllocError, Global};

/// How all paths that come to an item stand there: how many y registers there are, or no stack;
/// the item of the label of the lowest tag and its kind, if there is one.
#[derive(Clone, Copy)]
pub struct Standing {
    pub stack: Option<u32>,
    pub handler: Option<(u32, HandlerKind)>,
}

fn kind_of(kind: TagKind) -> HandlerKind
    ensures { result ≡ spec.kind_of kind }
{
    match kind {
        TagKind::Try => HandlerKind::Try,
        TagKind::Catch => HandlerKind::Catch,
    }
}

fn handler(sites: &Sites, tag: Option<Tag>) -> Option<(u32, HandlerKind)>
    ensures { (ms : List Module) (f : Placed) → AreSites ms f sites.now → result ≡ spec.handler_of f.function tag }
{
    match tag {
        None => None,
        Some(tag) => match sites.label_item(tag.label) {
            None => None,
            Some(item) => Some((item, kind_of(tag.kind))),
        },
    }
}

fn look_up(sites: &Sites, frame: Option<Frame>) -> Option<Standing>
    ensures { (ms : List Module) (f : Placed) → AreSites ms f sites.now → result ≡ option_map (spec.standing_in f.function) frame }
{
    match frame {
        None => None,
        Some(frame) => Some(Standing {
            stack: frame.stack,
            handler: handler(sites, frame.lowest),
        }),
    }
}

/// How paths stand at each item, by what they carry there.
pub(crate) fn standings(
    alloc: Global,
    sites: &Sites,
    frames: &[Option<Frame>],
) -> Result<Items<Option<Standing>>, AllocError>
    ensures { IfOk result (λ table. (ms : List Module) (f : Placed) → AreSites ms f sites.now → table ≡ map (option_map (spec.standing_in f.function)) frames.now) }
{
    let mut table = Items::new(alloc);
    for frame in frames {
        table.push(look_up(sites, *frame))?;
    }
    Ok(table)
}
