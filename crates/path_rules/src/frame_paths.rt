ghost use Rattle.std.specs.Prelude.{◌≡◌, [], ◌∷◌, ◌++◌, OnOk, Some, map, slice_get, true};
ghost use Rattle.beam_code.specs.Lined as item_type;
ghost use Rattle.beam_code.specs.Function.{label_in};
ghost use Rattle.beam_code.specs.Gates as gates;
ghost use Rattle.beam_code.specs.Shape.{shape_of};
ghost use Rattle.path_rules.specs.Frames.{frame_of, frame_ways, point_of};
ghost use Rattle.path_rules.specs.Points as points;
ghost use Rattle.path_rules.specs.Rules as rules;
ghost use Rattle.path_rules.specs.Rules.{looks_at_frames};
ghost use Rattle.path_rules.specs.Sites.{AreSites, placed_in};
ghost use Rattle.path_rules.specs.Tags.{lowest_tag};

use crate::fits::{in_order, is_lowest, keeps_tags, stack_fits};
use crate::frame::{FramePoint, behind, moved_to};
use crate::labels::labels_of;
use crate::named::{Asked, uses_pass};
use crate::rule::Rule;
use crate::same::{same_stack, same_tags};
use crate::sites::Sites;
use crate::tag::{Tag, TagKind};
use beam_code::{Function, Instr, Item, Module, goes_on};
use sqlite_items::Items;
use std::alloc::{AllocError, Global};

/// The paths of a function by their stack and tags, for one rule.
#[derive(Drop)]
pub struct FramePaths<'a> {
    pub(crate) alloc: Global,
    pub(crate) modules: &'a [Module],
    pub(crate) owner: &'a Module,
    pub(crate) function: &'a Function,
    pub(crate) sites: &'a Sites,
    pub(crate) rule: Rule,
    ghost prepared: { AreSites modules.now (placed_in owner.now function.now) sites.now },
    ghost frames: { looks_at_frames rule ≡ true },
}

fn ends_tag(kind: TagKind, y: u16, instr: &Instr) -> bool
    ensures { result ≡ rules.ends_tag kind y (shape_of instr.now) }
{
    match kind {
        TagKind::Try => match instr {
            Instr::TryCase(n) => y == *n,
            _ => false,
        },
        TagKind::Catch => match instr {
            Instr::CatchEnd(n) => y == *n,
            _ => false,
        },
    }
}

impl<'a> FramePaths<'a> {
    /// The paths of a function of these modules, with what is looked up of its items.
    pub fn new(
        alloc: Global,
        modules: &'a [Module],
        owner: &'a Module,
        function: &'a Function,
        sites: &'a Sites,
        rule: Rule,
    ) -> FramePaths<'a>
        requires prepared { AreSites modules.now (placed_in owner.now function.now) sites.now }
        requires frames { looks_at_frames rule ≡ true }
        ensures modules { result.modules.now ≡ modules.now }
        ensures owner { result.owner.now ≡ owner.now }
        ensures function { result.function.now ≡ function.now }
        ensures rule { result.rule ≡ rule }
    {
        FramePaths {
            alloc,
            modules,
            owner,
            function,
            sites,
            rule,
        }
    }

    pub fn label_item(&self, label: u32) -> Option<u32>
        ensures { result ≡ label_in self.now.function.now label }
    {
        self.sites.labels.get(&label).copied()
    }

    /// The first item with an effect from this one on.
    #[tactic(auto, using(crate::proofs::Effective::effective_past))]
    fn effective_item(&self, item: u32) -> u32
        ensures { result ≡ rules.effective_item self.now.function.now item }
    {
        let at = item as usize;
        let effective = self.sites.effective.as_slice();
        if at < effective.len() {
            effective[at]
        } else {
            item
        }
    }

    fn leads_to_end(&self, kind: TagKind, y: u16, label: u32) -> bool
        ensures { result ≡ rules.leads_to_end self.now.function.now kind y (label_in self.now.function.now label) }
    {
        match self.label_item(label) {
            None => false,
            Some(item) => {
                let end = self.effective_item(item);
                match self.function.items.get(end as usize) {
                    None => false,
                    Some(item) => ends_tag(kind, y, item.instr()),
                }
            }
        }
    }

    fn is_handled(&self, instr: &Instr, raised: bool) -> bool
        ensures { result ≡ rules.is_handled self.now.function.now raised (shape_of instr.now) }
    {
        match instr {
            Instr::Try(y, label) => self.leads_to_end(TagKind::Try, *y, *label),
            Instr::Catch(y, label) => self.leads_to_end(TagKind::Catch, *y, *label),
            Instr::TryCase(_) => raised,
            _ => true,
        }
    }

    fn is_at_label_of(&self, item: u32, tags: &[Tag]) -> bool
        ensures { result ≡ rules.is_at_label_of self.now.function.now item (lowest_tag tags.now) }
    {
        match tags.first() {
            None => false,
            Some(tag) => match self.label_item(tag.label) {
                None => false,
                Some(at) => item == self.effective_item(at),
            },
        }
    }

    fn ends_well(&self, instr: &Instr, item: u32, tags: &[Tag]) -> bool
        ensures { result ≡ rules.shape_ends_well self.now.function.now item tags.now (shape_of instr.now) }
    {
        match instr {
            Instr::TryEnd(y) | Instr::TryCase(y) => is_lowest(TagKind::Try, u32::from(*y), tags),
            Instr::CatchEnd(y) => {
                is_lowest(TagKind::Catch, u32::from(*y), tags) && self.is_at_label_of(item, tags)
            }
            _ => true,
        }
    }

    fn tags_fit(&self, instr: &Instr, item: u32, tags: &[Tag]) -> bool
        ensures { result ≡ rules.tags_fit self.now.function.now item tags.now (shape_of instr.now) }
    {
        uses_pass(Asked::Untagged(tags), instr)
            && keeps_tags(instr, tags)
            && self.ends_well(instr, item, tags)
    }

    fn falls_off(&self, instr: &Instr, item: u32) -> bool
        ensures { result ≡ rules.falls_off self.now.function.now item (shape_of instr.now) }
    {
        goes_on(instr) && item as usize + 1 >= self.function.items.len()
    }

    /// Whether the item is no call, or calls what it may.
    fn calls_well(&self, item: u32) -> bool
        ensures { (i : item_type.Lined) → slice_get self.now.function.now.items item ≡ Some i → result ≡ rules.calls_well self.now.modules.now (placed_in self.now.owner.now self.now.function.now) (shape_of i.instr) }
    {
        match self.sites.calls_well.get(item as usize) {
            Some(well) => *well,
            None => true,
        }
    }

    pub fn may_raise(&self, item: u32) -> bool
        ensures { (i : item_type.Lined) → slice_get self.now.function.now.items item ≡ Some i → result ≡ gates.may_raise self.now.modules.now (shape_of i.instr) }
    {
        match self.sites.may_raise.get(item as usize) {
            Some(may) => *may,
            None => false,
        }
    }

    /// Adds the next item, where the item goes on and is not the last.
    fn add_next(
        &self,
        instr: &Instr,
        from: &FramePoint,
        to: &mut Items<FramePoint>,
    ) -> Result<(), AllocError>
        ensures { OnOk result (to.new ≡ to.old ++ map frame_of (points.onward self.now.function.now (shape_of instr.now) (point_of from.now))) }
    {
        if goes_on(instr) && (from.item as usize) + 1 < self.function.items.len() {
            let next = behind(self.alloc, instr, from)?;
            to.push(next)?;
        }
        Ok(())
    }

    fn add_item(
        &self,
        from: &FramePoint,
        item: Option<u32>,
        to: &mut Items<FramePoint>,
    ) -> Result<(), AllocError>
        ensures { OnOk result (to.new ≡ to.old ++ map frame_of (points.at_item (point_of from.now) item)) }
    {
        if let Some(item) = item {
            let point = moved_to(self.alloc, from, item, false)?;
            to.push(point)?;
        }
        Ok(())
    }

    /// Adds the items of labels.
    fn add_labels(
        &self,
        from: &FramePoint,
        labels: &[u32],
        to: &mut Items<FramePoint>,
    ) -> Result<(), AllocError>
        ensures { OnOk result (to.new ≡ to.old ++ map frame_of (points.at_labels self.now.function.now (point_of from.now) labels.now)) }
    {
        for label in labels {
            self.add_item(from, self.label_item(*label), to)?;
        }
        Ok(())
    }

    /// Adds the handler of the lowest tag.
    fn add_handler(&self, from: &FramePoint, to: &mut Items<FramePoint>) -> Result<(), AllocError>
        ensures { OnOk result (to.new ≡ to.old ++ map frame_of (points.handlers self.now.function.now (point_of from.now) (lowest_tag from.now.tags))) }
    {
        if let Some(tag) = from.tags.as_slice().first() {
            if let Some(item) = self.label_item(tag.label) {
                let point = moved_to(self.alloc, from, item, true)?;
                to.push(point)?;
            }
        }
        Ok(())
    }

    /// Adds the points to which a path may go on from an item of the function.
    #[tactic(auto, using(crate::proofs::Adding::all_added))]
    fn add_moves(
        &self,
        item: &Item,
        from: &FramePoint,
        to: &mut Items<FramePoint>,
    ) -> Result<(), AllocError>
        requires { slice_get self.now.function.now.items from.now.item ≡ Some item.now }
        ensures { OnOk result (to.new ≡ to.old ++ map frame_of (points.moves_of self.now.modules.now self.now.function.now (point_of from.now) (shape_of item.now.instr))) }
    {
        self.add_next(item.instr(), from, to)?;
        let labels = labels_of(self.alloc, item.instr())?;
        self.add_labels(from, labels.as_slice(), to)?;
        if self.may_raise(from.item) {
            self.add_handler(from, to)?;
        }
        Ok(())
    }

    /// Whether a path breaks the rule by itself at an item of the function.
    fn breaks_item(&self, item: &Item, point: &FramePoint) -> bool
        requires { slice_get self.now.function.now.items point.now.item ≡ Some item.now }
        ensures { result ≡ rules.breaks_of self.now.modules.now (placed_in self.now.owner.now self.now.function.now) self.now.rule (point_of point.now) (shape_of item.now.instr) }
    {
        let instr = item.instr();
        let tags = point.tags.as_slice();
        match self.rule {
            Rule::FallsOff => self.falls_off(instr, point.item),
            Rule::CallTarget => !self.calls_well(point.item),
            Rule::BadHandler => !self.is_handled(instr, point.raised),
            Rule::StackSize => !stack_fits(instr, point.stack),
            Rule::TagState => !self.tags_fit(instr, point.item, tags),
            Rule::TagOrder => !in_order(instr, tags),
            Rule::Loop | Rule::Undefined | Rule::HeapUncovered => false,
        }
    }

    pub(crate) fn start_point(&self) -> FramePoint
        ensures { result ≡ (frame_ways self.now.modules.now (placed_in self.now.owner.now self.now.function.now) self.now.rule).graph.start }
    {
        FramePoint {
            item: self.function.entry,
            stack: None,
            tags: Items::new(self.alloc),
            raised: false,
        }
    }

    pub(crate) fn moves_from(
        &self,
        from: &FramePoint,
        to: &mut Items<FramePoint>,
    ) -> Result<(), AllocError>
        ensures { OnOk result (to.new ≡ to.old ++ (frame_ways self.now.modules.now (placed_in self.now.owner.now self.now.function.now) self.now.rule).graph.moves from.now) }
    {
        match self.function.items.get(from.item as usize) {
            None => Ok(()),
            Some(item) => self.add_moves(item, from, to),
        }
    }

    pub(crate) fn breaks_at(&self, point: &FramePoint) -> bool
        ensures { result ≡ (frame_ways self.now.modules.now (placed_in self.now.owner.now self.now.function.now) self.now.rule).breaks point.now }
    {
        match self.function.items.get(point.item as usize) {
            None => false,
            Some(item) => self.breaks_item(item, point),
        }
    }

    pub(crate) fn splits_at(&self, a: &FramePoint, b: &FramePoint) -> bool
        ensures { result ≡ (frame_ways self.now.modules.now (placed_in self.now.owner.now self.now.function.now) self.now.rule).splits a.now b.now }
    {
        match self.rule {
            Rule::StackSize => a.item == b.item && !same_stack(a.stack, b.stack),
            Rule::TagState => {
                a.item == b.item && !same_tags(a.tags.as_slice(), b.tags.as_slice())
            }
            _ => false,
        }
    }
}

pub(crate) fn is_apart(a: &FramePoint, b: &FramePoint) -> bool
    ensures { result ≡ rules.are_apart (point_of a.now) (point_of b.now) }
{
    a.item == b.item
        && !(same_stack(a.stack, b.stack) && same_tags(a.tags.as_slice(), b.tags.as_slice()))
}
