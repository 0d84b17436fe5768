ghost use Rattle.beam_rows.specs.Rows as rows;
ghost use Rattle.beam_rows.specs.Uses as uses;

/// A law: calls inside the module and outside, of each kind.
pub fn calls()
    ensures inside { rows.CallsInside }
    ensures outside { rows.CallsOutside }
{}

/// A law: what asks the heap ends at one word less than it takes.
pub fn asks_the_heap()
    ensures { rows.AsksTheHeap }
{}

/// A law: a return, raises, and ends.
pub fn returns_and_ends()
    ensures { rows.ReturnsRaisesAndEnds }
{}

/// A law: the entry takes a reduction, where there is one and the frame has room.
pub fn enters()
    ensures { rows.Enters }
{}

/// A law: what calls, returns and ends do to the frames.
pub fn events()
    ensures { rows.EventsMoveFrames }
{}

/// A law: which handler a raise finds, and what that finds in its registers.
pub fn raises()
    ensures { rows.RaisesFindHandlers }
{}

/// A law: what items read and write, whether they go on, and what they count.
pub fn uses()
    ensures nothing { uses.Nothing }
    ensures moves { uses.Moves }
    ensures choices { uses.Choices }
    ensures stacks { uses.Stacks }
    ensures marks { uses.Marks }
    ensures calls { uses.Calls }
    ensures exceptions { uses.Exceptions }
    ensures allocated { uses.Allocated }
{}
