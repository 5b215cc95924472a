// What a word is in its order. A plain word goes to a parameter, told by its place.
#[derive(Clone, Copy, Default)]
pub enum Role {
    #[default]
    PathWord,
    SwitchWord,
    SwitchValue,
    EndMark,
    PlainWord { parameter: usize },
}
