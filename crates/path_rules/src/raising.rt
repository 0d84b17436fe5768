// Which items may raise.

ghost use Rattle.std.specs.Prelude.{◌≡◌};
ghost use Rattle.beam_code.specs.Shape.{Outside, shape_of};
ghost use Rattle.path_rules.specs.BuiltIns.{raises_where, target_raises};

use crate::built_ins::{built_in_fails, inline_fails};
use beam_code::{Callee, Instr};

fn callee_raises(callee: &Callee, undefined: bool) -> bool
    ensures { result ≡ target_raises undefined (Outside callee.now) }
{
    built_in_fails(
        callee.owner.as_str(),
        callee.name.as_str(),
        callee.arity as usize,
    )
    .unwrap_or(undefined)
}

/// Whether an item may raise, where `undefined` says whether its callee is no built-in's, but one
/// of a module that is given and does not export it.
pub(crate) fn may_raise(instr: &Instr, undefined: bool) -> bool
    ensures { result ≡ raises_where undefined (shape_of instr.now) }
{
    match instr {
        Instr::Bif(name, fail, operands, _) | Instr::GcBif(name, fail, _, operands, _) => {
            *fail == 0 && inline_fails(name.as_str(), operands.as_slice().len()).unwrap_or(false)
        }
        Instr::CallExtLast(_, callee, _) | Instr::CallExtOnly(_, callee) => {
            callee_raises(callee, undefined)
        }
        Instr::Call(_, _)
        | Instr::CallExt(_, _)
        | Instr::FuncInfo(_, _, _)
        | Instr::Badmatch(_)
        | Instr::CaseEnd(_)
        | Instr::TryCaseEnd(_)
        | Instr::IfEnd
        | Instr::BifRaise(_, _, _)
        | Instr::Raise(_, _, _)
        | Instr::RawRaise => true,
        _ => false,
    }
}
