// The levels by which edges are in force. The table tracks the run.
ghost use Rattle.std.specs.Prelude.{◌≡◌, List};
ghost use Rattle.events.specs.declared.Event.{Event as AnEvent};
ghost use Rattle.transactions.specs.Tracks.{Tracks};
ghost use Rattle.verdicts.specs.Edges.{above_pl1, at_pl3};

use events::Level;
use transactions::TransactionTable;

// Whether a transaction runs at PL-2, PL-3 or SI.
pub fn above_pl1(table: &TransactionTable, transaction: u16) -> bool
    ensures { (es : List AnEvent) → Tracks table.now es → result ≡ above_pl1 es transaction }
{
    matches!(
        table.transaction(transaction).level,
        Some(Level::Pl2 | Level::Pl3 | Level::Si)
    )
}

// Whether a transaction runs at PL-3.
pub fn at_pl3(table: &TransactionTable, transaction: u16) -> bool
    ensures { (es : List AnEvent) → Tracks table.now es → result ≡ at_pl3 es transaction }
{
    matches!(table.transaction(transaction).level, Some(Level::Pl3))
}
