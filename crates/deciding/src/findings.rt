// Which finding of closed walks is the first, or else the order.
ghost use Rattle.std.specs.Prelude.{◌≡◌, ℕ, ◌<◌, ◌≤◌, Bool, List, [], length, drop, MatchResult};
ghost use Rattle.events.specs.declared.Event.{Event as AnEvent};
ghost use Rattle.events.specs.Questions.{unfit_at};
ghost use Rattle.transactions.specs.Tracks.{Tracks};
ghost use Rattle.verdicts.specs.Versions.{committed};
ghost use Rattle.verdicts.specs.Tables.{ShowsKinds};
ghost use Rattle.deciding.specs.Decisions.{count_of, decision_of, Settles, Decides};
ghost use Rattle.deciding.specs.Searches.{found_count};

use crate::decision::Decision;
use crate::searching::{Edges, write_names};
use graph::Kind;
use search::{Found, Short};
use transactions::TransactionTable;
use verdicts::Finding;
use vertices::Vertices;

// The sets of kinds along which a closed walk is G0, G1c or G2: ww alone; ww and wr; ww, wr and rw.
const G0_KINDS: u8 = Kind::Ww as u8;

const G1C_KINDS: u8 = Kind::Ww as u8 | Kind::Wr as u8;

const G2_KINDS: u8 = Kind::Ww as u8 | Kind::Wr as u8 | Kind::Rw as u8;

impl Decision {
    // How many numbers stand at the front of the report.
    pub fn count(self) -> u16
        ensures { result ≡ count_of self }
    {
        match self {
            Decision::Order { count } | Decision::Walk { count, .. } => count,
        }
    }
}

// What a search decides, where its walk would be one of the finding.
fn decision(finding: Finding, found: Found) -> Decision
    requires { found_count found ≤ 256 }
    ensures { result ≡ decision_of finding found }
{
    match found {
        Found::Order(count) => Decision::Order {
            count: count as u16,
        },
        Found::Walk(count) => Decision::Walk {
            finding,
            count: count as u16,
        },
    }
}

impl Edges<'_> {
    // Decides by vertices, which it writes to the front of a list. Each search rests on what the one before it did not find, so
    // they stand one after the other.
    fn settle(&self, real_time: bool, found: &mut [u16; 256]) -> Decision
        ensures few { count_of result ≤ 256 }
        ensures settled { (rank : ℕ → ℕ → ℕ) (es : List AnEvent) → Tracks self.now.table.now es → self.now.vertices.now ≡ committed es → unfit_at [] es ≡ 0 → ShowsKinds rank es self.now.bytes.now → Settles rank es real_time result found.new }
    {
        let by_ww = self.search_kinds(G0_KINDS, found);
        if let Found::Walk(_) = by_ww {
            return decision(Finding::G0, by_ww);
        }
        let by_wr = self.search_kinds(G1C_KINDS, found);
        if let Found::Walk(_) = by_wr {
            return decision(Finding::G1c, by_wr);
        }
        let by_rw = self.search_kinds(G2_KINDS, found);
        if let Found::Walk(_) = by_rw {
            return decision(Finding::G2, by_rw);
        }
        if real_time {
            decision(Finding::Rt, self.search_all(found))
        } else {
            decision(Finding::G2, by_rw)
        }
    }
}

// The order of the committed transactions, or the first finding of closed walks with such a walk: its transaction numbers then
// stand at the front of the report, and later entries stay. A report of fewer than 256 entries is refused, and stays.
pub fn decide(
    table: &TransactionTable,
    vertices: &Vertices,
    bytes: &[u8],
    real_time: bool,
    report: &mut [u16],
) -> Result<Decision, Short>
    ensures refused { MatchResult result (λ _. 256 ≤ length report.old) (λ _. (length report.old < 256) × (report.new ≡ report.old)) }
    ensures later { MatchResult result (λ d. (count_of d ≤ 256) × (drop (count_of d) report.new ≡ drop (count_of d) report.old)) (λ _. report.new ≡ report.old) }
    ensures decided { MatchResult result (λ d. (rank : ℕ → ℕ → ℕ) (es : List AnEvent) → Tracks table.now es → vertices.now ≡ committed es → unfit_at [] es ≡ 0 → ShowsKinds rank es bytes.now → Decides rank es real_time d report.new) (λ _. report.new ≡ report.old) }
{
    if report.len() < 256 {
        return Err(Short);
    }
    let mut found = [0; 256];
    let edges = Edges {
        table,
        vertices,
        bytes,
    };
    let decision = edges.settle(real_time, &mut found);
    write_names(vertices, &found, decision.count() as usize, report);
    Ok(decision)
}
