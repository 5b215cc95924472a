use text::span::Span;

// Where the text of a value stands: a part of the line, or the constant `true`.
// Kept: an enum of its own and no `Option<Span>`, since `true` is a text that the line lacks, and no missing part.
#[derive(Clone, Copy, Default)]
pub enum Source {
    Part(Span),
    #[default]
    True,
}

// A value of an order: the place of its parameter, its text, and the word in which it stands, counted in the order.
#[derive(Clone, Copy, Default)]
pub struct ValueRow {
    pub parameter: usize,
    pub source: Source,
    pub word: usize,
}
