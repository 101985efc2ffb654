// A table that passes the check, with what makes it one: no function that takes it asks for that.
ghost use Rattle.std.specs.Prelude.{◌≡◌};
ghost use Rattle.table.specs.Check.{check_of, sound};
ghost use Rattle.readers.specs.Read.{table_in};

use readers::Table;

// The words pass the check, and the map reads their own table. So it is within document 01's limits (`checked_valid`).
#[derive(Clone, Copy)]
pub(crate) struct Sound<'a> {
    pub(crate) table: Table<'a>,
    ghost passes: { check_of table.words.now ≡ sound (table_in table) },
}
