ghost use Rattle.beam_rows.specs.Control as control;
ghost use Rattle.beam_rows.specs.Exceptions as exceptions;
ghost use Rattle.beam_rows.specs.Values as values;

/// A law: arithmetic of built-ins.
pub fn arithmetic()
    ensures sums { values.Sums }
    ensures quotients { values.Quotients }
    ensures bits { values.Bits }
    ensures bits_of_signs { values.BitsOfSigns }
    ensures shifts { values.Shifts }
{}

/// A law: comparisons, parts of terms, and what built-ins make.
pub fn values()
    ensures comparisons { values.Comparisons }
    ensures decisions { values.Decisions }
    ensures never { values.Never }
    ensures parts { values.Parts }
    ensures made { values.Made }
    ensures words_made { values.WordsMade }
    ensures raised { values.OnlyRaised }
{}

/// A law: tests and selections.
pub fn choices()
    ensures tests { control.Tests }
    ensures both_ways { control.BothWays }
    ensures never { control.NeverHold }
    ensures selections { control.Selections }
{}

/// A law: moves, and what happens to y registers.
pub fn registers()
    ensures moves { control.Moves }
    ensures stacks { control.Stacks }
    ensures new_ys { control.NewYs }
    ensures remarks { control.Remarks }
{}

/// A law: allocations that test the heap, of both names.
pub fn allocations()
    ensures { control.HeapAllocations }
{}

/// A law: runs that the limits end, and functions that call themselves.
pub fn runs()
    ensures limited { control.Limited }
    ensures recursions { control.Recursions }
{}

/// A law: calls of functions and of built-ins.
pub fn calls_of_functions()
    ensures calls { exceptions.Calls }
    ensures built_ins { exceptions.BuiltIns }
    ensures fail_labels { exceptions.FailLabels }
{}

/// A law: exceptions, and who handles them.
pub fn exceptions()
    ensures reasons { exceptions.Reasons }
    ensures tries { exceptions.Tries }
    ensures nests { exceptions.Nests }
    ensures catches { exceptions.Catches }
{}
