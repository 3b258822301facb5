//! Tables of names.

ghost use Rattle.std.specs.Prelude.{◌≡◌, map, option_map};
ghost use Rattle.tpm_output.specs.Named.{named_in, row_as};

/// A row of a table: a number and its name. It is no struct, so that definitions can read the tables.
pub type Row = (u32, &'static str);

/// A table of names by their numbers, a row in a line.
#[macro_export]
macro_rules! names {
    ($($number:literal $name:literal,)*) => {
        [$(($number, $name)),*]
    };
}

// The name in a row, where there is one.
fn name_in(row: Option<&'static Row>) -> Option<&'static str>
    ensures { option_map (λ name. name.now) result ≡ option_map (λ r. (row_as r.now).name) row.entry }
{
    match row {
        Some(&(_, name)) => Some(name),
        None => None,
    }
}

/// The name that the table has for this number, or none where it has none.
pub fn look_up(table: &'static [Row], number: u32) -> Option<&'static str>
    ensures { option_map (λ name. name.now) result ≡ named_in (map row_as table.now) number }
{
    name_in(table.iter().find(|row| row.0 == number))
}
