// Laws from vertices to transactions. Each is the contract of a function that does nothing.
#![tactic(auto)]

ghost use Rattle.vertex_laws.specs.Laws.{TablesShowEdges, UnionsShowEdges, OrdersCarryOver, OrdersExcludeWalks, WalksCarryOver};

// A table of the kinds in force shows the edges of the run, and together with what begins and ends those of real time too.
pub fn graphs_show_edges()
    ensures table { TablesShowEdges }
    ensures union { UnionsShowEdges }
{}

// The order that a search finds, named by transactions, is the order of the run, and then no walk of transactions is closed.
pub fn orders_carry_over()
    ensures order { OrdersCarryOver }
    ensures walkless { OrdersExcludeWalks }
{}

// The closed walk that a search finds, named by transactions, is a closed walk of the run.
pub fn walks_carry_over()
    ensures { WalksCarryOver }
{}
