// A set of marks, numbered from 0 to 255, in four words of 64 bits: mark 64 * q + r is bit r of word q.
#![tactic(auto)]

ghost use Rattle.std.specs.Prelude.{◌≡◌, ℕ, ◌<◌, false, not, ◌&&◌, ◌||◌, MatchOption, ◌==◌, nat_lt};
ghost use Rattle.marks.specs.Members.{marked, Least};

use std::array;

#[derive(Clone, Copy, Default)]
pub struct Marks {
    words: [u64; 4],
}

impl Marks {
    // No mark is set.
    #[tactic(auto, using(crate::proofs::Words::none_in_four))]
    pub fn new() -> Marks
        ensures { (k : ℕ) → marked result k ≡ false }
    {
        Marks::default()
    }

    // The marks below a number are set, and all 256 where it is larger.
    pub fn first(count: usize) -> Marks
        ensures { (k : ℕ) → marked result k ≡ (nat_lt k count && nat_lt k 256) }
    {
        let mut marks = Marks::new();
        for mark in 0..count.min(256) {
            marks.insert(mark);
        }
        marks
    }

    // Whether a mark is set; past 255 none is.
    pub fn contains(&self, mark: usize) -> bool
        ensures { result ≡ marked self.now mark }
    {
        self.words
            .get(mark / 64)
            .is_some_and(|word| (*word >> (mark % 64)) & 1 == 1)
    }

    // Sets a mark; a number past 255 changes nothing.
    pub fn insert(&mut self, mark: usize)
        ensures { (k : ℕ) → marked self.new k ≡ (marked self.old k || (k == mark && nat_lt mark 256)) }
    {
        if mark < 256 {
            self.words[mark / 64] |= 1 << (mark % 64);
        }
    }

    // Takes a mark away; a number past 255 changes nothing.
    pub fn remove(&mut self, mark: usize)
        ensures { (k : ℕ) → marked self.new k ≡ (marked self.old k && not (k == mark)) }
    {
        if mark < 256 {
            self.words[mark / 64] &= !(1 << (mark % 64));
        }
    }

    // Those marks that both sets have.
    pub fn common(&self, other: &Marks) -> Marks
        ensures { (k : ℕ) → marked result k ≡ (marked self.now k && marked other.now k) }
    {
        Marks {
            words: array::from_fn(|at| self.words[at] & other.words[at]),
        }
    }

    // The lowest mark that is set, or none where no mark is.
    pub fn lowest(&self) -> Option<usize>
        ensures { MatchOption result ((k : ℕ) → marked self.now k ≡ false) (Least (marked self.now)) }
    {
        for (at, word) in self.words.iter().enumerate() {
            if *word != 0 {
                return Some(64 * at + word.trailing_zeros() as usize);
            }
        }
        None
    }
}
