// The five forms of a line, made of fields.
ghost use Rattle.std.specs.Prelude.{◌≡◌, ℕ, ◌^◌, ◌<◌, List, ◌∷◌, Err, MatchResult, ◌≢◌};
ghost use Rattle.events.specs.declared.Event.{Event as Recorded};
ghost use Rattle.lines.specs.Lines.{LedBy, NoForm};
ghost use Rattle.lines.specs.Grammar.{done, parse, begin_form, read_form, write_form, forms};
ghost use Rattle.lines.specs.Grammar as grammar;
ghost use Rattle.line_reader.specs.Parts.{is_letter, parse_part};

use super::{level, number, version};
use crate::part::Part;
use events::Event;
use lines::FormFault;

// The column of the first field, after the letter and its space.
const FIELDS: usize = 3;

// The event of the line that leads the text, and how many bytes the line has with its byte 10; or the fault.
pub fn read_line(text: &[u8]) -> Result<(Event, usize), FormFault>
    ensures { MatchResult result (λ p. LedBy text.now p.0 p.1) (λ fault. NoForm text.now fault.column) }
{
    let (event, column) = form(text)?;
    Ok((event, column - 1))
}

// The form that the letter names: its event, and the column after its line. A match, and no table of functions: the letters are
// the cases of the format.
fn form(text: &[u8]) -> Result<(Event, usize), FormFault>
    ensures { result ≡ parse forms 1 text.now }
{
    let [letter, b' ', rest @ ..] = text else {
        return Err(unlettered(text));
    };
    let fields = Part {
        text: rest,
        column: FIELDS,
    };
    match *letter as char {
        'b' => begin(fields),
        'r' => read(fields),
        'w' => write(fields),
        'c' => alone(fields, |transaction| Event::Commit { transaction }),
        'a' => alone(fields, |transaction| Event::Abort { transaction }),
        _ => Err(FormFault { column: 1 }),
    }
}

// The fault of a text that does not begin with a byte and a space.
fn unlettered(text: &[u8]) -> FormFault
    requires { (letter : ℕ) (rest : List ℕ) → text.now ≢ letter ∷ 32 ∷ rest }
    ensures { Err result ≡ parse forms 1 text.now }
{
    let [letter, ..] = text else {
        return FormFault { column: 1 };
    };
    let column = if names_form(*letter) { 2 } else { 1 };
    FormFault { column }
}

// Whether the byte is the letter of a form.
fn names_form(letter: u8) -> bool
    ensures { result ≡ is_letter letter }
{
    matches!(letter as char, 'b' | 'r' | 'w' | 'c' | 'a')
}

// What follows the letter of each form: the event, and the column after its line.

fn begin(part: Part<'_>) -> Result<(Event, usize), FormFault>
    ensures { result ≡ parse_part begin_form part.entry }
{
    let (transaction, rest) = number(part, b' ')?;
    let (word, rest) = level(rest, b'\n')?;
    let event = Event::Begin {
        transaction: transaction.value(),
        level: word.value(),
    };
    Ok((event, rest.column))
}

fn read(part: Part<'_>) -> Result<(Event, usize), FormFault>
    ensures { result ≡ parse_part read_form part.entry }
{
    let (transaction, rest) = number(part, b' ')?;
    let (item, rest) = number(rest, b' ')?;
    let (seen, rest) = version(rest, b'\n')?;
    let event = Event::Read {
        transaction: transaction.value(),
        item: item.value(),
        version: seen.version(),
    };
    Ok((event, rest.column))
}

fn write(part: Part<'_>) -> Result<(Event, usize), FormFault>
    ensures { result ≡ parse_part write_form part.entry }
{
    let (transaction, rest) = number(part, b' ')?;
    let (item, rest) = number(rest, b'\n')?;
    let event = Event::Write {
        transaction: transaction.value(),
        item: item.value(),
    };
    Ok((event, rest.column))
}

// A transaction alone, which makes the event.
fn alone<F: FnOnce(u16) -> Event>(part: Part<'_>, event: F) -> Result<(Event, usize), FormFault>
    requires { F.IsAlwaysCallable event }
    ensures { (made : ℕ → Recorded) → ((t : ℕ) (e : Recorded) → t < 2 ^ 16 → F.post event t e → e ≡ made t) → result ≡ parse_part (grammar.number 10 (λ t. done (made t))) part.entry }
{
    let (transaction, rest) = number(part, b'\n')?;
    Ok((event(transaction.value()), rest.column))
}
