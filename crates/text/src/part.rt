// Parts of rows, cut short where the rows end.
ghost use Rattle.std.specs.Prelude.{◌≡◌, take, drop};

// The first rows, as many as there are.
pub fn front<T>(rows: &[T], len: usize) -> &[T]
    ensures { result.now ≡ take len rows.now }
{
    rows.get(..len).unwrap_or(rows)
}

// So many rows from a place on, or as many as there are.
// The place is cut to the length once, since `get(start..)` with its default compares the two three times, and each look-up of a name pays that.
pub fn part<T>(rows: &[T], start: usize, len: usize) -> &[T]
    ensures { result.now ≡ take len (drop start rows.now) }
{
    front(&rows[start.min(rows.len())..], len)
}
