// Which judge over an image is asked.
ghost use Rattle.std.specs.Prelude.{◌≡◌};
ghost use Rattle.tree.specs.Tree.{Tree};
ghost use Rattle.judges.specs.Chosen.{chosen_accepts};
ghost use Rattle.image.specs.Loads.{Means};
ghost use Rattle.image_reader.specs.Choice.{choice_of, choice_named};

use image::load::Loaded;
use judges::chosen::Chosen;

#[derive(Clone, Copy)]
pub enum JudgeChoice {
    Texts,
    Gauge,
    Either,
}

impl JudgeChoice {
    // The judge of a name.
    pub fn named(name: &[u8]) -> Option<JudgeChoice>
        ensures { result ≡ choice_named name.now }
    {
        match name {
            b"texts" => Some(JudgeChoice::Texts),
            b"gauge" => Some(JudgeChoice::Gauge),
            b"either" => Some(JudgeChoice::Either),
            _ => None,
        }
    }
}

// The judge over the patterns of a checked image.
// Kept: a match, since a closure that makes a judge could not be handed out, and the three are all there are.
pub fn chosen<'a>(loaded: Loaded<'a>, choice: JudgeChoice) -> Chosen<'a>
    ensures { (t : Tree) → Means loaded.entry t → chosen_accepts result ≡ choice_of choice t }
{
    match choice {
        JudgeChoice::Texts => Chosen::Texts(loaded.texts),
        JudgeChoice::Gauge => Chosen::Gauge(loaded.gauges),
        JudgeChoice::Either => Chosen::Both(loaded.texts, loaded.gauges),
    }
}
