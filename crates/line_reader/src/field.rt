// Fields of a line. The readers of one field answer it with the part after it, or the fault at the first byte that continues none.
ghost use Rattle.std.specs.Prelude.{◌≡◌, ℕ, ◌<◌, ◌≤◌, true, false, length, MatchOption, nat_eq, ◌≢◌};
ghost use Rattle.std.specs.List.{common_prefix_len};
ghost use Rattle.lines.specs.Lines.{word as level-word};
ghost use Rattle.lines.specs.Grammar.{grows, longer, number_on, width_on, leads, level_part, version_part};
ghost use Rattle.lines.specs.Grammar as grammar;
ghost use Rattle.line_reader.specs.Fields.{end_of, number_of, version_of};
ghost use Rattle.line_reader.specs.Parts.{Leading, Reads, LevelBytes};

use crate::part::Part;
use events::Level;
use lines::FormFault;

pub mod line;

// A field of a line: its part of the line, and what that says.
#[derive(Clone, Copy)]
pub(crate) enum Field<'a> {
    Word(Part<'a>, Level),
    Number(Part<'a>, u16),
    Version(Part<'a>, (u16, u16)),
}

impl Field<'_> {
    // One past the field's last column.
    fn end(&self) -> usize
        ensures { result ≡ end_of self.now }
    {
        match self {
            Field::Word(part, _) | Field::Number(part, _) | Field::Version(part, _) => part.end(),
        }
    }

    // The number that the field says: the level's code for a word, and 0 for a version, which no reader asks. An `Option` would
    // be taken apart by the very readers that know which field they have read; so for `version`.
    fn value(&self) -> u16
        ensures { result ≡ number_of self.now }
    {
        match self {
            Field::Word(_, level) => u16::from(*level),
            Field::Number(_, value) => *value,
            Field::Version(..) => 0,
        }
    }

    // The version that the field says; the initial one for another field.
    fn version(&self) -> (u16, u16)
        ensures { result ≡ version_of self.now }
    {
        match self {
            Field::Version(_, version) => *version,
            _ => (0, 0),
        }
    }
}

// The number with one more digit, if the byte is one that may follow.
fn grown(value: u16, byte: u8) -> Option<u16>
    ensures { MatchOption result (grows value byte ≡ false) (λ more. (grows value byte ≡ true) × (more ≡ longer value byte)) }
{
    match byte {
        b'0'..=b'9' if value > 0 => value.checked_mul(10)?.checked_add(u16::from(byte - b'0')),
        _ => None,
    }
}

// Reads digits on from the number: what it becomes, and how many bytes it takes.
fn number_on(value: u16, text: &[u8]) -> (u16, usize)
    ensures number { result.0 ≡ number_on value text.now }
    ensures width { result.1 ≡ width_on value text.now }
    ensures within { result.1 ≤ length text.now }
{
    let mut value = value;
    for (i, byte) in text.iter().enumerate() {
        let Some(more) = grown(value, *byte) else {
            return (value, i);
        };
        value = more;
    }
    (value, text.len())
}

// A leading number with its width in bytes.
fn leading(text: &[u8]) -> Option<(u16, usize)>
    ensures { MatchOption result (leads text.now ≡ false) (λ p. Leading text.now p.0 p.1) }
{
    let [first @ b'0'..=b'9', others @ ..] = text else {
        return None;
    };
    let (value, more) = number_on(u16::from(*first - b'0'), others);
    Some((value, more + 1))
}

// The number that leads the part, with the byte that ends it, and the part after that.
fn number(part: Part<'_>, mark: u8) -> Result<(Field<'_>, Part<'_>), FormFault>
    ensures { Reads mark (grammar.number mark) number_of part.entry result }
{
    let Some((value, width)) = leading(part.text) else {
        return Err(part.fault());
    };
    let (digits, rest) = part.split_at(width);
    let rest = rest.after(mark)?;
    Ok((Field::Number(digits, value), rest))
}

// The version that leads the part, with the byte that ends it: the writer, a point and the modification.
fn version(part: Part<'_>, mark: u8) -> Result<(Field<'_>, Part<'_>), FormFault>
    ensures { Reads mark (version_part mark) version_of part.entry result }
{
    let (writer, rest) = number(part, b'.')?;
    let (modification, rest) = number(rest, mark)?;
    let (both, _) = part.split_at(modification.end() - part.column);
    let version = (writer.value(), modification.value());
    Ok((Field::Version(both, version), rest))
}

// How many bytes the text and the word have in common, from their first on.
fn common(text: &[u8], word: &[u8]) -> usize
    ensures { result ≡ common_prefix_len nat_eq word.now text.now }
{
    word.iter()
        .zip(text)
        .take_while(|(letter, byte)| letter == byte)
        .count()
}

// How many bytes the text has in common with a level's word, with the one that has the most.
fn level_bytes(text: &[u8]) -> usize
    ensures within { result ≤ length text.now }
    ensures whole_or_stop { LevelBytes text.now result }
{
    ["PL-1", "PL-2", "PL-3", "SI"]
        .iter()
        .map(|word| common(text, word.as_bytes()))
        .max()
        .unwrap_or(0)
}

// The level that a word names.
fn level_named(word: &[u8]) -> Option<Level>
    ensures { MatchOption result ((level : Level) → word.now ≢ level-word level) (λ level. word.now ≡ level-word level) }
{
    match word {
        b"PL-1" => Some(Level::Pl1),
        b"PL-2" => Some(Level::Pl2),
        b"PL-3" => Some(Level::Pl3),
        b"SI" => Some(Level::Si),
        _ => None,
    }
}

// The level's word that leads the part, with the byte that ends it.
fn level(part: Part<'_>, mark: u8) -> Result<(Field<'_>, Part<'_>), FormFault>
    ensures { Reads mark (level_part mark) number_of part.entry result }
{
    let (word, rest) = part.split_at(level_bytes(part.text));
    let Some(level) = level_named(word.text) else {
        return Err(rest.fault());
    };
    let rest = rest.after(mark)?;
    Ok((Field::Word(word, level), rest))
}
