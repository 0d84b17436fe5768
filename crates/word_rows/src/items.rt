//! One instruction as a row.

ghost use Rattle.beam_code.specs.Canonical.{is_canonical_instr};
ghost use Rattle.beam_code.specs.Shape.{shape_of};
ghost use Rattle.module_sizes.specs.Counts.{all_operands};
ghost use Rattle.std.specs.Prelude.{◌≡◌, IfOk, IsTrue, OnOk, drop};
ghost use Rattle.word_rows.specs.Rows as rows;
ghost use Rattle.word_rows.specs.Setting.{here};

use crate::calls::Leaving;
use crate::operands::{Roots, spot};
use crate::row::{Piece, Row};
use crate::setting::Setting;
use beam_code::Instr;
use std::alloc::AllocError;

/// The words of atoms of the machine's own.
const FUNCTION_CLAUSE: u32 = 0x20B;

const IF_CLAUSE: u32 = 0x24B;

const BADMATCH: u32 = 0x2CB;

const CASE_CLAUSE: u32 = 0x30B;

const TRY_CLAUSE: u32 = 0x34B;

impl Setting<'_> {
    /// The row of an instruction where there are so many y registers.
    pub(crate) fn row(&self, size: u32, roots: &mut Roots, instr: &Instr) -> Result<Row, AllocError>
        requires { IsTrue (is_canonical_instr instr.now) }
        ensures row { IfOk result (λ r. r ≡ rows.shape_row (here self.now) size roots.old.left.now (shape_of instr.now)) }
        ensures left { OnOk result (roots.new.left.now ≡ rows.behind_all (all_operands (shape_of instr.now)) roots.old.left.now) }
    {
        match instr {
            Instr::FuncInfo(_, _, _) => Ok(Row::Raises(FUNCTION_CLAUSE)),
            Instr::Move(from, to) => Ok(self.moves(size, roots, from, Piece::Whole, *to)),
            Instr::Swap(a, b) => Ok(Row::Swaps(spot(size, *a), spot(size, *b))),
            Instr::GetList(from, a, b) => Ok(self.splits(size, roots, from, *a, *b)),
            Instr::GetHd(from, to) => Ok(self.moves(size, roots, from, Piece::Head, *to)),
            Instr::GetTl(from, to) => Ok(self.moves(size, roots, from, Piece::Tail, *to)),
            Instr::GetTupleElement(from, n, to) => {
                Ok(self.moves(size, roots, from, Piece::Element(*n), *to))
            }
            Instr::PutList(head, tail, to) => Ok(self.conses(size, roots, head, tail, *to)),
            Instr::PutTuple2(to, parts) => self.tuples(size, roots, parts.as_slice(), *to),
            Instr::Test(name, label, operands) => {
                self.tests(size, roots, name, operands.as_slice(), *label)
            }
            Instr::SelectVal(from, label, cases) => {
                self.selects_word(size, roots, from, cases.as_slice(), *label)
            }
            Instr::SelectTupleArity(from, label, cases) => {
                self.selects_size(size, roots, from, cases.as_slice(), *label)
            }
            Instr::Jump(label) => Ok(Row::Jumps(self.label(*label))),
            Instr::AllocateHeap(_, need, _)
            | Instr::AllocateHeapZero(_, need, _)
            | Instr::TestHeap(need, _) => Ok(Row::Asks(*need)),
            Instr::Return => Ok(Row::Returns(self.frame())),
            Instr::Bif(name, fail, operands, to) | Instr::GcBif(name, fail, _, operands, to) => {
                self.computes(size, roots, name, operands.as_slice(), *fail, *to)
            }
            Instr::Badmatch(value) => Ok(self.raises_pair(size, roots, BADMATCH, value)),
            Instr::CaseEnd(value) => Ok(self.raises_pair(size, roots, CASE_CLAUSE, value)),
            Instr::TryCaseEnd(value) => Ok(self.raises_pair(size, roots, TRY_CLAUSE, value)),
            Instr::IfEnd => Ok(Row::Raises(IF_CLAUSE)),
            Instr::BifRaise(class, reason, _) | Instr::Raise(class, reason, _) => {
                Ok(self.raises_given(size, roots, class, reason))
            }
            Instr::RawRaise => Ok(Row::RaisesRaw),
            Instr::Call(arity, label) => self.calls_inside(Leaving::Stays, *arity, *label),
            Instr::CallLast(arity, label, n) => {
                self.calls_inside(Leaving::Drops(*n), *arity, *label)
            }
            Instr::CallOnly(arity, label) => self.calls_inside(Leaving::HasNone, *arity, *label),
            Instr::CallExt(arity, callee) => Ok(self.calls_outside(Leaving::Stays, *arity, callee)),
            Instr::CallExtLast(arity, callee, n) => {
                Ok(self.calls_outside(Leaving::Drops(*n), *arity, callee))
            }
            Instr::CallExtOnly(arity, callee) => {
                Ok(self.calls_outside(Leaving::HasNone, *arity, callee))
            }
            Instr::Label(_) | Instr::Line(_) | Instr::Comment(_) => Ok(Row::Passes),
            Instr::Allocate(_, _) | Instr::AllocateZero(_, _) => Ok(Row::Passes),
            Instr::Init(_) | Instr::Kill(_) | Instr::Trim(_, _) => Ok(Row::Passes),
            Instr::Deallocate(_) | Instr::Try(_, _) | Instr::Catch(_, _) => Ok(Row::Passes),
            Instr::TryEnd(_) | Instr::TryCase(_) | Instr::CatchEnd(_) => Ok(Row::Passes),
        }
    }
}
