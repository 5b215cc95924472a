// Insertion of a row among rows that ascend.
ghost use Rattle.std.specs.Prelude.{◌≡◌, ◌+◌, ◌<◌, length, take, MatchOption};
ghost use Rattle.table.specs.Order.{Ascending};
ghost use Rattle.whole.specs.Places.{Among};
ghost use Rattle.whole.specs.Inserted.{Inserted};

use table::keyed::Keyed;
use table::search::Table;

// Inserts a row at its place among the filled rows, and says how many are filled then. None where its key stands already.
pub(crate) fn insert<'k, T: Keyed<'k> + Copy>(
    image: &'k [u8],
    rows: &mut [T],
    filled: usize,
    row: T,
) -> Option<usize>
    requires room { filled < length rows.old }
    requires ascending { Ascending (T.keyed image.now) (take filled rows.old) }
    ensures { MatchOption result (Among (λ x. T.keyed image.now x ≡ T.keyed image.now row) (take filled rows.old)) (λ more. (more ≡ filled + 1) × Inserted (T.keyed image.now) rows.old filled row rows.new) }
{
    let before = Table {
        image,
        rows: &rows[..filled],
    };
    let place = before.search_back(row.key(image)).err()?;
    rows[filled] = row;
    let more = filled + 1;
    rows[place..more].rotate_right(1);
    Some(more)
}
