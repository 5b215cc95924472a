// The words of an order behind its path.
ghost use Rattle.std.specs.Prelude.{◌≡◌, ◌+◌, ◌≤◌, length, IfOk};
ghost use Rattle.arrayvec.specs.ArrayVec.{array_vec_len};
ghost use Rattle.text.specs.Line.{closed};
ghost use Rattle.text.specs.Spans.{texts_at};
ghost use Rattle.reading.specs.Model.{scan};
ghost use Rattle.reader.specs.Signatures.{parameters_of};
ghost use Rattle.reader.specs.Steps.{state_of};
ghost use Rattle.reader.specs.Scans.{scanned_of};

use crate::invocation::Invocation;
use crate::signature::Signature;
use arrayvec::ArrayVec;
use reading::role::Role;
use refusal::Refusal;
use register::register::Register;
use text::span::Span;

impl Invocation {
    // Reads words as far as the order goes, and tells how many it takes.
    pub(crate) fn read_words<R: Register>(
        &mut self,
        signature: &Signature<'_, R>,
        bytes: &[u8],
        words: &[Span],
        roles: &mut ArrayVec<Role, 128>,
    ) -> Result<usize, Refusal>
        requires few { self.old.words + length words.now ≤ 1024 }
        requires room { length self.old.values.rows.items + length (closed (texts_at bytes.now words.now)) ≤ 1024 }
        requires places { array_vec_len roles.old + length words.now ≤ 128 }
        ensures scans { scanned_of (parameters_of R.Register.signatures signature.now) bytes.now words.now result self.new roles.new ≡ scan (parameters_of R.Register.signatures signature.now) (state_of (parameters_of R.Register.signatures signature.now) bytes.now self.old roles.old.items) (texts_at bytes.now words.now) }
        ensures takes { IfOk result (λ taken. (taken ≤ length words.now) × (self.new.words ≡ self.old.words + taken)) }
    {
        let options = !words.is_empty() && signature.has_options();
        for (i, span) in words.iter().enumerate() {
            let Some(role) = self.read_word(signature, options, bytes, *span)? else {
                return Ok(i);
            };
            roles.push(role);
        }
        match self.awaited(signature) {
            Some(awaited) => Err(Refusal::OptionMissingValue {
                word: awaited.word,
                letter: awaited.letter,
            }),
            None => Ok(words.len()),
        }
    }
}
