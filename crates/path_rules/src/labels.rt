ghost use Rattle.std.specs.Prelude.{◌≡◌, ◌∷◌, IfOk, map};
ghost use Rattle.beam_code.specs.Shape.{shape_of};
ghost use Rattle.path_rules.specs.Points as points;

use beam_code::{ArityCase, Case, Instr};
use sqlite_items::Items;
use std::alloc::{AllocError, Global};

/// A label, and more behind it.
fn with_more(alloc: Global, label: u32, more: Vec<u32>) -> Result<Items<u32>, AllocError>
    ensures { IfOk result (λ labels. labels ≡ label ∷ more.items) }
{
    let mut labels = Items::from_slice(alloc, &[label])?;
    labels.append(Items::from_vec(more))?;
    Ok(labels)
}

fn case_labels(alloc: Global, other: u32, cases: &[Case]) -> Result<Items<u32>, AllocError>
    ensures { IfOk result (λ labels. labels ≡ other ∷ map (λ c. c.label) cases.now) }
{
    let more = cases.iter().map(|c| c.label).collect(alloc)?;
    with_more(alloc, other, more)
}

fn size_labels(alloc: Global, other: u32, cases: &[ArityCase]) -> Result<Items<u32>, AllocError>
    ensures { IfOk result (λ labels. labels ≡ other ∷ map (λ c. c.label) cases.now) }
{
    let more = cases.iter().map(|c| c.label).collect(alloc)?;
    with_more(alloc, other, more)
}

/// The labels that an item leads to itself.
pub fn labels_of(alloc: Global, instr: &Instr) -> Result<Items<u32>, AllocError>
    ensures { IfOk result (λ labels. labels ≡ points.labels_of (shape_of instr.now)) }
{
    match instr {
        Instr::Test(_, label, _) | Instr::Jump(label) => Items::from_slice(alloc, &[*label]),
        Instr::SelectVal(_, other, cases) => case_labels(alloc, *other, cases.as_slice()),
        Instr::SelectTupleArity(_, other, cases) => { size_labels(alloc, *other, cases.as_slice()) }
        Instr::Bif(_, fail, _, _) | Instr::GcBif(_, fail, _, _, _) => {
            if *fail == 0 {
                Ok(Items::new(alloc))
            } else {
                Items::from_slice(alloc, &[*fail])
            }
        }
        _ => Ok(Items::new(alloc)),
    }
}
