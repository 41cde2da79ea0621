// Laws of versions, orders and reruns. Each is the contract of a function that does nothing.
#![tactic(auto)]

ghost use Rattle.verdict_laws.specs.Laws.{VersionsLaw, OrderListsVersions, OrderGoesAlong, OneOrder, OrderExcludesWalks, RerunLaw, ReportedReplays};

// The versions of an item are strictly ordered, and each has one next version at most.
pub fn versions_stand()
    ensures { VersionsLaw }
{}

// An order along the edges, restricted to the writers of an item, is the item's list of versions.
pub fn order_lists_versions()
    ensures { OrderListsVersions }
{}

// The order that is reported goes along the edges, is the only one, and excludes every closed walk.
pub fn order_stands()
    ensures along { OrderGoesAlong }
    ensures only { OneOrder }
    ensures excludes { OrderExcludesWalks }
{}

// A rerun of such an order shows every PL-3 read its recorded version, and ends every item on its last version.
pub fn rerun_stands()
    ensures again { RerunLaw }
    ensures reported { ReportedReplays }
{}
