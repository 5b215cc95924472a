// The tables of a tree.
use text::span::Span;
use tree::rows::{LetterRow, LongRow, ModuleRow, NameRow, ParameterRow, PatternRow, RecipeRow};

pub mod clear;

// How many rows of each table are filled.
#[derive(Clone, Copy)]
pub struct Sizes {
    pub modules: usize,
    pub names: usize,
    pub recipes: usize,
    pub patterns: usize,
    pub longs: usize,
    pub letters: usize,
}

// The rows of a tree, which only the tree check fills. Long and letter rows are derived from the recipe rows.
// Kept: the tables are fixed memory with their sizes beside, since a controller has no heap and a refused image leaves all rows zero.
#[derive(Drop)]
pub struct Tables {
    pub(crate) sizes: Sizes,
    pub(crate) modules: [ModuleRow; 64],
    pub(crate) names: [NameRow; 512],
    pub(crate) recipes: [RecipeRow; 64],
    pub(crate) patterns: [PatternRow; 256],
    pub(crate) longs: [LongRow; 1024],
    pub(crate) letters: [LetterRow; 1024],
}
