//! The rows of all items of an image.

ghost use Rattle.beam_code.specs.Function.{function_at};
ghost use Rattle.beam_code.specs.Function as functions;
ghost use Rattle.module_texts.specs.Bounds.{AreBounded};
ghost use Rattle.native_link.specs.Places.{first_item};
ghost use Rattle.std.specs.Prelude.{◌≡◌, ◌++◌, IfOk, OnOk, Some, drop};
ghost use Rattle.word_rows.specs.Lookup.{IsLookupOf};
ghost use Rattle.word_rows.specs.Rows as spec;
ghost use Rattle.word_rows.specs.Setting.{here};

use crate::labels::label_items;
use crate::lookup::Lookup;
use crate::operands::Roots;
use crate::row::Row;
use crate::setting::Setting;
use crate::targets::placed_at;
use beam_code::Item;
use native_link::Image;
use std::alloc::{AllocError, Global};

/// How many y registers a stack has; 0 for no stack.
fn stack_size(stack: Option<u16>) -> u32
    ensures { result ≡ spec.stack_size stack }
{
    match stack {
        Some(size) => u32::from(size),
        None => 0,
    }
}

/// The row of an item of a function by its number there.
fn item_row(setting: &Setting, at: u32, roots: &mut Roots, item: &Item) -> Result<Row, AllocError>
    ensures row { IfOk result (λ r. r ≡ spec.item_row (here setting.now) at roots.old.left.now item.now) }
    ensures left { OnOk result (roots.new.left.now ≡ spec.behind_item item.now roots.old.left.now) }
{
    item.terms_are_canonical();
    let stack = setting.stack(at);
    let row = setting.row(stack_size(stack.unwrap_or(None)), roots, item.instr())?;
    if at == setting.function.entry {
        return Ok(Row::Enters(setting.frame()));
    }
    match stack {
        Some(_) => Ok(row),
        None => Ok(Row::Nothing),
    }
}

/// Adds the rows of the items of a function.
fn add_items(setting: &Setting, roots: &mut Roots, rows: &mut Vec<Row>) -> Result<(), AllocError>
    ensures rows { OnOk result (rows.new.items ≡ rows.old.items ++ spec.rows_from (here setting.now) 0 roots.old.left.now setting.now.function.now.items) }
    ensures left { OnOk result (roots.new.left.now ≡ spec.behind_items setting.now.function.now.items roots.old.left.now) }
{
    let mut at = 0;
    for item in setting.function.items.as_slice() {
        let row = item_row(setting, at, roots, item)?;
        rows.push(row)?;
        at += 1;
    }
    Ok(())
}

/// Adds the rows of the function with a number, if there is one.
fn add_function(
    alloc: Global,
    image: &Image,
    lookup: &Lookup,
    number: u32,
    roots: &mut Roots,
    rows: &mut Vec<Row>,
) -> Result<(), AllocError>
    requires found { IsLookupOf image.now lookup.now }
    requires bounded { AreBounded image.now.modules }
    ensures rows { OnOk result (spec.AreAdded image.now number roots.old.left.now rows.old.items rows.new.items) }
    ensures left { OnOk result ((p : functions.Placed) → function_at image.now.modules number ≡ Some p → roots.new.left.now ≡ spec.behind_items p.function.items roots.old.left.now) }
{
    let Some(placed) = placed_at(image.checked(), number) else {
        return Ok(());
    };
    let labels = label_items(alloc, placed.function.items.as_slice())?;
    let first = image.checked().first_item(number).unwrap_or(0);
    let setting = Setting {
        alloc,
        image,
        lookup,
        owner: placed.owner,
        function: placed.function,
        labels: &labels,
        number,
        first,
    };
    add_items(&setting, roots, rows)
}

/// The rows of all items of an image, by the numbers of the items. The one error is want of memory.
pub fn rows(alloc: Global, image: &Image) -> Result<Vec<Row>, AllocError>
    ensures { IfOk result (λ made. made.items ≡ spec.rows_of image.now) }
{
    image.checked().are_in_profile();
    let lookup = Lookup::new(alloc, image)?;
    let mut roots = Roots {
        left: image.parts().roots.as_slice(),
    };
    let mut made = Vec::new(alloc);
    for number in 0..image.checked().functions() {
        add_function(alloc, image, &lookup, number, &mut roots, &mut made)?;
    }
    Ok(made)
}
