//! Fields without the spaces and tabs around them, and their cells. See specs/Fields.antt.

ghost use Rattle.std.specs.Prelude.{◌≡◌, ◌≤◌, length, option_map, slice_get};
ghost use Rattle.std.specs.List.{prefix_len, suffix_len};
ghost use Rattle.gta_text.specs.Tokens.{is_blank};
ghost use Rattle.gta_rows.specs.Fields.{without_front, without_back, trimmed, trimmed_fields};
ghost use Rattle.gta_rows.specs.Fields.{cell_at};

use csv::ByteRecord;
use gta_text::field_value;

/// The cell at a place of a record; `None` where no cell stands there.
pub(crate) fn cell_at(row: &ByteRecord, place: usize) -> Option<i64>
    ensures { result ≡ cell_at (trimmed_fields row.now) place }
{
    field_value(field_at(row, place)?)
}

/// The field at a place of a record, trimmed.
#[tactic(auto, using(crate::proofs::Records::trimmed_at))]
pub(crate) fn field_at(row: &ByteRecord, place: usize) -> Option<&[u8]>
    ensures { option_map (λ field. field.now) result ≡ slice_get (trimmed_fields row.now) place }
{
    Some(trimmed(row.get(place)?))
}

#[tactic(auto, unfolding(crate::specs::Fields::trimmed))]
fn trimmed(field: &[u8]) -> &[u8]
    ensures { result.now ≡ trimmed field.now }
{
    without_back(without_front(field))
}

fn without_front(field: &[u8]) -> &[u8]
    ensures { result.now ≡ without_front field.now }
{
    field.split_at(blanks_before(field)).1
}

fn without_back(field: &[u8]) -> &[u8]
    ensures { result.now ≡ without_back field.now }
{
    field.split_at(field.len() - blanks_behind(field)).0
}

fn blanks_before(field: &[u8]) -> usize
    ensures blanks { result ≡ prefix_len is_blank field.now }
    ensures within { result ≤ length field.now }
{
    field.iter().take_while(|byte| is_blank(**byte)).count()
}

fn blanks_behind(field: &[u8]) -> usize
    ensures blanks { result ≡ suffix_len is_blank field.now }
    ensures within { result ≤ length field.now }
{
    field
        .iter()
        .rev()
        .take_while(|byte| is_blank(**byte))
        .count()
}

fn is_blank(byte: u8) -> bool
    ensures { result ≡ is_blank byte }
{
    byte == b' ' || byte == b'\t'
}
