// Rows put into a table.
ghost use Rattle.std.specs.Prelude.{◌≡◌, ◌+◌, ◌≤◌, ◌++◌, length, take};
ghost use Rattle.reading.specs.Line.{repeated};
ghost use Rattle.reading.specs.declared.role.Role.TheVariants as role;

use reading::role::Role;

// Puts these rows behind the first `at` of a table.
pub(crate) fn put<T: Copy>(table: &mut [T], at: usize, rows: &[T])
    requires { at + length rows.now ≤ length table.old }
    ensures front { take (at + length rows.now) table.new ≡ take at table.old ++ rows.now }
    ensures long { length table.new ≡ length table.old }
{
    table[at..at + rows.len()].copy_from_slice(rows);
}

// Puts so many path words behind the first `at` of a table of roles.
pub(crate) fn put_path(table: &mut [Role], at: usize, count: usize)
    requires { at + count ≤ length table.old }
    ensures front { take (at + count) table.new ≡ take at table.old ++ repeated count role.PathWord }
    ensures long { length table.new ≡ length table.old }
{
    // Kept: `fill` clones word by word, and makes the reading of a line slower by a thirtieth.
    for role in table[at..at + count].iter_mut() {
        *role = Role::PathWord;
    }
}
