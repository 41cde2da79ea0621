// The lines of a listing: the fault of a text that is none, and what is proved of lines whatever reads or writes them.
#![tactic(auto)]

ghost use Rattle.lines.specs.Laws.{LinesDiffer, FaultOnce};
ghost use Rattle.lines.specs.Known.{ColumnsKnown};

// A text that begins with none of the five forms: the column, from 1, of the first byte that continues none.
#[derive(Clone, Copy, PartialEq, Eq, Debug)]
pub struct FormFault {
    pub column: usize,
}

// Known texts have their fault at the known columns.
pub fn columns_known()
    ensures { ColumnsKnown }
{}

// A line tells its event, whatever follows it: no other event has it, or a part of it, as its line.
pub fn lines_differ()
    ensures { LinesDiffer }
{}

// A text has one fault column.
pub fn fault_once()
    ensures { FaultOnce }
{}
