//! Tables of what response codes say.

ghost use Rattle.std.specs.Prelude.{◌≡◌, map, option_map};
ghost use Rattle.tpm_names.specs.Meanings.{meaning_as, meaning_in, meaning_named, row_as, same_word};

/// What a response code says, or what a layer is.
#[derive(Clone, Copy)]
pub struct Meaning {
    pub number: u32,
    // behind TPM_RC_ or TSS2_BASE_RC_, or between TSS2_ and _RC_LAYER
    pub name: &'static str,
    pub words: &'static str,
}

/// A row of a table: the number, the name and the words of a [`Meaning`]. It is no struct, so that definitions can read
/// the tables.
pub type Row = (u32, &'static str, &'static str);

/// A table of rows, each in a line.
#[macro_export]
macro_rules! meanings {
    ($($number:literal $name:literal $words:literal,)*) => {
        [$(($number, $name, $words)),*]
    };
}

fn same_word(word: &[u8], other: &[u8]) -> bool
    ensures { result ≡ same_word word.now other.now }
{
    word.eq_ignore_ascii_case(other)
}

// What a row says, where there is one.
fn said(row: Option<&'static Row>) -> Option<Meaning>
    ensures { option_map meaning_as result ≡ option_map (λ r. row_as r.now) row.entry }
{
    match row {
        Some(&(number, name, words)) => Some(Meaning {
            number,
            name,
            words,
        }),
        None => None,
    }
}

/// What the table says under this name, in any letter case.
pub fn look_up_name(table: &'static [Row], name: &[u8]) -> Option<Meaning>
    ensures { option_map meaning_as result ≡ meaning_named (map row_as table.now) name.now }
{
    said(table.iter().find(|row| same_word(row.1.as_bytes(), name)))
}

/// What the table says of this number.
pub fn look_up(table: &'static [Row], number: u32) -> Option<Meaning>
    ensures { option_map meaning_as result ≡ meaning_in (map row_as table.now) number }
{
    said(table.iter().find(|row| row.0 == number))
}
