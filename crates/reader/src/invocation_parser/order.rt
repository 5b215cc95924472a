// One order: its path, its words and their counts.
ghost use Rattle.std.specs.Prelude.{◌≤◌, length};
ghost use Rattle.text.specs.Line.{closed};
ghost use Rattle.text.specs.Spans.{texts_at};
ghost use Rattle.reader.specs.Orders.{OrderedBy, ParsedWithin};

use crate::invocation_parser::{InvocationParser, check_can_be_default_recipe};
use crate::signature::Signature;
use judge::Judge;
use path::path::Path;
use path::walk::find_path;
use refusal::Refusal;
use register::register::Register;
use text::span::Span;

impl InvocationParser {
    // Reads the order whose first word is the first of these, which go on to the line's end, and answers its path. Its words, and those of a fault, are counted from there.
    pub(crate) fn parse_invocation<R: Register, J: Judge>(
        &mut self,
        register: &R,
        judge: &J,
        bytes: &[u8],
        words: &[Span],
    ) -> Result<Path, Refusal>
        requires room { length (closed (texts_at bytes.now words.now)) ≤ 1024 }
        requires few { length words.now ≤ 128 }
        ensures ordered { OrderedBy (R.Register.names register.now) (R.Register.signatures register.now) (J.Judge.accepts judge.now) bytes.now words.now result self.new }
        ensures within { ParsedWithin (R.Register.names register.now) bytes.now words.now result self.new }
    {
        let path = find_path(register, bytes, words)?;
        check_can_be_default_recipe(register, path)?;
        let taken = path.words;
        let signature = Signature {
            register,
            recipe: path.recipe,
        };
        self.order.restart(taken);
        self.roles.clear();
        self.order
            .read_words(&signature, bytes, &words[taken..], &mut self.roles)?;
        self.order.check(&signature, judge, bytes)?;
        Ok(path)
    }
}
