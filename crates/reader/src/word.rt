// The switches of one word.
ghost use Rattle.std.specs.Prelude.{◌≡◌, ℕ, ◌+◌, ◌≤◌, true, List, map, length};
ghost use Rattle.std.specs.Option.{option_map};
ghost use Rattle.text.specs.Spans.{text_at};
ghost use Rattle.reading.specs.Letters.{letters};
ghost use Rattle.reading.specs.Switches.{is_dashed};
ghost use Rattle.reading.specs.Switches.Switch.{Letter};
ghost use Rattle.reading.specs.Model.{run};
ghost use Rattle.reader.specs.Meaning.{values_of};
ghost use Rattle.reader.specs.Signatures.{parameters_of};
ghost use Rattle.reader.specs.Answers.{did_of, word_did};

use crate::letters::Letters;
use crate::signature::Signature;
use crate::switch_word::SwitchWord;
use crate::values::Values;
use crate::waiting::Waiting;
use refusal::Refusal;
use register::register::Register;
use text::span::Span;

// The letters of a switch word, from the first to the last.
fn apply_letters<R: Register>(
    signature: &Signature<'_, R>,
    name: &[u8],
    word: usize,
    value: Option<Span>,
    values: &mut Values,
) -> Result<Option<Waiting>, Refusal>
    requires { length values.old.rows.items + length name.now ≤ 1024 }
    ensures runs { (bytes : List ℕ) → did_of (parameters_of R.Register.signatures signature.now) bytes result values.new ≡ run (parameters_of R.Register.signatures signature.now) word (option_map (text_at bytes) value) (values_of bytes values.old) 0 (map Letter (letters name.now)) }
    ensures room { length values.new.rows.items ≤ length values.old.rows.items + length name.now }
{
    let mut waiting = None;
    for (i, letter) in Letters(name).enumerate() {
        waiting = values.apply(word, i, signature.letter(letter.code), value, letter.last)?;
    }
    Ok(waiting)
}

// Applies the switches of a switch word: one long name, or letters, and what stands behind the first `=`.
pub(crate) fn apply_word<R: Register>(
    signature: &Signature<'_, R>,
    bytes: &[u8],
    span: Span,
    word: usize,
    values: &mut Values,
) -> Result<Option<Waiting>, Refusal>
    requires dashed { is_dashed (text_at bytes.now span) ≡ true }
    requires room { length values.old.rows.items + length (text_at bytes.now span) ≤ 1024 }
    ensures did { did_of (parameters_of R.Register.signatures signature.now) bytes.now result values.new ≡ word_did (parameters_of R.Register.signatures signature.now) word (values_of bytes.now values.old) (text_at bytes.now span) }
    ensures room { length values.new.rows.items ≤ length values.old.rows.items + length (text_at bytes.now span) }
{
    let switch = SwitchWord::of(bytes, span);
    if switch.name.is_empty() {
        return Err(Refusal::InvalidOption { word });
    }
    if switch.long {
        return values.apply(word, 0, signature.long(switch.name), switch.value, true);
    }
    apply_letters(signature, switch.name, word, switch.value, values)
}
