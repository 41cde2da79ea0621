// Writes one line of a listing at the front of a text.
#![tactic(auto)]

ghost use Rattle.std.specs.Prelude.{◌≡◌, ◌+◌, ◌<◌, ◌≤◌, [], ◌∷◌, ◌++◌, length, drop, decimal, MatchOption};
ghost use Rattle.lines.specs.Lines.{code_word, line};

use events::{Event, Level};
use itoa::write_digits;

// The most bytes of a line: a read's letter, four marks with numbers of five digits, and byte 10.
const LONGEST: usize = 26;

// A line in the making, from its end to its letter, as digits are written: its bytes are those of the room from `start` on. An
// `ArrayVec` grows at its end, and each number would be made elsewhere and copied into it. A line is not printed by `write!`, which by its
// contract may always fail: a line that fits is written.
#[derive(Drop)]
struct Line {
    room: [u8; LONGEST],
    start: usize,
    ghost within: { start ≤ 26 },
}

impl Line {
    // No bytes yet.
    fn new() -> Line
        ensures { result.start ≡ 26 }
    {
        Line {
            room: [0; LONGEST],
            start: LONGEST,
        }
    }

    // Puts a byte before the line.
    #[inline]
    fn byte(&mut self, byte: u8)
        requires { 1 ≤ self.old.start }
        ensures bytes { drop self.new.start self.new.room ≡ byte ∷ drop self.old.start self.old.room }
        ensures start { self.new.start + 1 ≡ self.old.start }
    {
        self.start -= 1;
        self.room[self.start] = byte;
    }

    // Puts a mark and a number before the line.
    #[inline]
    fn number(&mut self, mark: u8, number: u16)
        requires { 6 ≤ self.old.start }
        ensures bytes { drop self.new.start self.new.room ≡ mark ∷ decimal number ++ drop self.old.start self.old.room }
        ensures start { self.old.start ≤ self.new.start + 6 }
    {
        let end = self.start;
        self.start = write_digits(u64::from(number), &mut self.room, end);
        self.byte(mark);
    }

    // Puts a mark and a word of at most five letters before the line.
    fn word(&mut self, mark: u8, word: &str)
        requires { (length word.now ≤ 5) × (6 ≤ self.old.start) }
        ensures bytes { drop self.new.start self.new.room ≡ mark ∷ word.now ++ drop self.old.start self.old.room }
        ensures start { self.old.start ≤ self.new.start + 6 }
    {
        let end = self.start;
        self.start -= word.len();
        let start = self.start;
        self.room[start..end].copy_from_slice(word.as_bytes());
        self.byte(mark);
    }

    // The bytes so far.
    fn bytes(&self) -> &[u8]
        ensures { result.now ≡ drop self.now.start self.now.room }
    {
        &self.room[self.start..]
    }
}

// The word of the level with this code, a literal as in the format; nothing where no level has it.
fn level_word(code: u16) -> &'static str
    ensures { (result.now ≡ code_word code) × (length result.now ≤ 4) }
{
    match Level::try_from(code) {
        Ok(Level::Pl1) => "PL-1",
        Ok(Level::Pl2) => "PL-2",
        Ok(Level::Pl3) => "PL-3",
        Ok(Level::Si) => "SI",
        Err(_) => "",
    }
}

// The line of an event, with its byte 10; nothing for the blank event, which has no line.
#[tactic(auto, unfolding(lines::specs::Lines::line))]
fn line_of(event: Event) -> Line
    ensures { drop result.start result.room ≡ line event }
{
    let mut line = Line::new();
    match event {
        Event::Blank => {}
        Event::Begin { transaction, level } => {
            line.byte(b'\n');
            line.word(b' ', level_word(level));
            line.number(b' ', transaction);
            line.byte(b'b');
        }
        Event::Read {
            transaction,
            item,
            version: (writer, modification),
        } => {
            line.byte(b'\n');
            line.number(b'.', modification);
            line.number(b' ', writer);
            line.number(b' ', item);
            line.number(b' ', transaction);
            line.byte(b'r');
        }
        Event::Write { transaction, item } => {
            line.byte(b'\n');
            line.number(b' ', item);
            line.number(b' ', transaction);
            line.byte(b'w');
        }
        Event::Commit { transaction } => {
            line.byte(b'\n');
            line.number(b' ', transaction);
            line.byte(b'c');
        }
        Event::Abort { transaction } => {
            line.byte(b'\n');
            line.number(b' ', transaction);
            line.byte(b'a');
        }
    }
    line
}

// How many digits a number has.
fn digits(number: u16) -> usize
    ensures { (result ≡ length (decimal number)) × (result ≤ 5) }
{
    match number {
        0..=9 => 1,
        10..=99 => 2,
        100..=999 => 3,
        1000..=9999 => 4,
        _ => 5,
    }
}

// How many bytes an event's line has, its byte 10 counted; the blank event has no line. The fields are counted and no line is
// made, since a listing is measured before any of it is written.
#[tactic(auto, unfolding(lines::specs::Lines::line))]
pub fn line_length(event: Event) -> usize
    ensures { result ≡ length (line event) }
{
    match event {
        Event::Blank => 0,
        Event::Begin { transaction, level } => 4 + digits(transaction) + level_word(level).len(),
        Event::Read {
            transaction,
            item,
            version: (writer, modification),
        } => 6 + digits(transaction) + digits(item) + digits(writer) + digits(modification),
        Event::Write { transaction, item } => 4 + digits(transaction) + digits(item),
        Event::Commit { transaction } | Event::Abort { transaction } => 3 + digits(transaction),
    }
}

// Writes an event's line at the front of the text, and answers how many bytes it has; the other bytes stay. Where the line does
// not fit, nothing is written. The blank event has no line.
pub fn write_line(text: &mut [u8], event: Event) -> Option<usize>
    ensures { MatchOption result ((length text.old < length (line event)) × (text.new ≡ text.old)) (λ n. (n ≡ length (line event)) × (n ≤ length text.old) × (text.new ≡ line event ++ drop n text.old)) }
{
    // where there is room for the longest line, nothing is counted
    if text.len() < LONGEST && text.len() < line_length(event) {
        return None;
    }
    let line = line_of(event);
    let bytes = line.bytes();
    text[..bytes.len()].copy_from_slice(bytes);
    Some(bytes.len())
}
