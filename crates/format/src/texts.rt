// Texts of an image: a length byte, and that many bytes.
ghost use Rattle.std.specs.Prelude.{◌≡◌, length, IfOk, Decides};
ghost use Rattle.refusal.specs.declared.Refusal.TheVariants.{ForbiddenText};
ghost use Rattle.text.specs.Spans.{text_at};
ghost use Rattle.format.specs.Format.{sized};
ghost use Rattle.format.specs.Fields.{Plain, plain_text, name_text, ranged};
ghost use Rattle.format.specs.Reads.{Reads};
ghost use Rattle.format.specs.Calls.{Checks};

use crate::cursor::Cursor;
use refusal::Refusal;
use text::identifier::is_identifier;
use text::span::Span;
use text::span::texts::text_at;
use text::utf8::is_utf8;

// Whether bytes are UTF-8 without zero bytes.
fn is_plain(text: &[u8]) -> bool
    ensures { Decides result (Plain text.now) }
{
    is_utf8(text) && !text.contains(&0)
}

impl Cursor<'_> {
    // A length byte and that many bytes.
    fn read_sized(&mut self) -> Result<Span, Refusal>
        ensures reads { Reads sized text_at self.old result self.new }
        ensures long { IfOk result (λ s. length (text_at self.old.image.now s) ≡ s.len) }
    {
        let at = self.at;
        let len = self.read_number::<u8>()? as usize;
        if self.left() < len {
            self.at = at;
            return Err(Refusal::FieldCutOff { at });
        }
        let start = self.at;
        self.at = start + len;
        Ok(Span { start, len })
    }

    // A text of at least so many bytes, and at most 32.
    fn read_ranged(&mut self, least: usize) -> Result<Span, Refusal>
        ensures { Reads (ranged least) text_at self.old result self.new }
    {
        self.read_in_range(|c| c.read_sized(), |s| (least..=32).contains(&s.len))
    }

    // A text of at least so many bytes, if it is allowed; else it is forbidden.
    fn read_allowed<T: Fn(&[u8]) -> bool>(
        &mut self,
        least: usize,
        allowed: T,
    ) -> Result<Span, Refusal>
        requires { T.IsAlwaysCallable allowed }
        ensures { Checks (Reads (ranged least) text_at) (λ s b. (t : _) × T.post allowed t b × (t.now ≡ text_at self.old.image.now s)) (λ at e. e ≡ ForbiddenText at) self.old result self.new }
    {
        let image = self.image;
        self.read_checked(
            |c| c.read_ranged(least),
            |s| allowed(text_at(image, s)),
            |at| Refusal::ForbiddenText { at },
        )
    }

    // A text of at least so many bytes: UTF-8 without zero bytes.
    pub fn read_plain(&mut self, least: usize) -> Result<Span, Refusal>
        ensures { Reads (plain_text least) text_at self.old result self.new }
    {
        self.read_allowed(least, is_plain)
    }

    // A name: a text that is an identifier.
    pub fn read_name(&mut self) -> Result<Span, Refusal>
        ensures { Reads name_text text_at self.old result self.new }
    {
        self.read_allowed(1, is_identifier)
    }
}
