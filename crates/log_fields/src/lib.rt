// One line of the log's text: its fourteen fields, as the words of a decision. Nothing is refused; words are not tested for being a decision.
#![tactic(auto)]

ghost use Rattle.std.specs.Prelude.{◌≡◌};
ghost use Rattle.replay_text.specs.Lines.{fields_of};
ghost use Rattle.columns.specs.Columns.{form_of};
ghost use Rattle.log_fields.specs.Line.{number_in, line_of, words_of_line};

use columns::is_float;
use decisions::DECISION_WIDTH;
use numerals::{bits, decimal};
use replay_text::fields::Fields;

fn number_in(column: usize, field: &[u8]) -> Option<u64>
    ensures { result ≡ number_in (form_of column) field.now }
{
    if is_float(column) {
        return bits(field);
    }
    decimal(field)
}

// Exactly fourteen fields, parted by commas, each a number of its column's form.
pub fn line_of(line: &[u8]) -> Option<[u64; DECISION_WIDTH]>
    ensures { result ≡ words_of_line (line_of (fields_of line.now)) }
{
    let mut fields = Fields::of(line);
    let mut words = [0; DECISION_WIDTH];
    for (column, word) in words.iter_mut().enumerate() {
        *word = number_in(column, fields.next()?)?;
    }
    if fields.next().is_some() {
        return None;
    }
    Some(words)
}
