// Version orders: rules that rank the versions of an item.
ghost use Rattle.std.specs.Prelude.{◌≡◌, ℕ};
ghost use Rattle.verdict_laws.specs.Laws.{Lawful};
ghost use Rattle.versions.specs.Rules.{ranking, ranking_lawful};

// A rule that gives each version a rank, from the position of its writer's last write of the item and the position of the
// writer's commit. Where two versions differ in both numbers, their ranks differ.
pub trait VersionOrder {
    ghost ranks: { Self → ℕ → ℕ → ℕ };

    // The proof that the rule keeps its law.
    ghost lawful: { (x : Self) → Lawful (ranks x) };

    fn rank(&self, write: u16, commit: u16) -> u32
        ensures { result ≡ ranks self.now write commit };
}

// The two rules: by the last write of the item, or by the commit.
#[derive(Clone, Copy, PartialEq, Eq, Debug)]
pub enum Rule {
    ByWrite,
    ByCommit,
}

impl VersionOrder for Rule {
    ghost ranks = { ranking };

    ghost lawful = { ranking_lawful };

    fn rank(&self, write: u16, commit: u16) -> u32 {
        match self {
            Rule::ByWrite => u32::from(write),
            Rule::ByCommit => u32::from(commit),
        }
    }
}
