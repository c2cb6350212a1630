//! Numbers in decimal digits, with and without a sign.
//! What bytes are a number, and which one, is in specs/Numbers.antt.
ghost use Rattle.std.specs.Prelude.{◌≡◌, ◌+◌, fold};
ghost use Rattle.std.specs.List.{list_all};
ghost use Rattle.gta_text.specs.Numbers.{is_digit, is_number, digits_number, cell_number};
ghost use Rattle.gta_text.specs.Capped.{capped_step};

/// The greatest absolute value of a number in a specification and of a cell.
pub const NUMBER_BOUND: u64 = 4611686018427387903;

/// The value of one or more decimal digits; `None` where the bytes are something else, or the
/// value is past the bound. Takes no memory.
#[tactic(auto, using(crate::proofs::Digits::fold_capped))]
pub fn digits_value(bytes: &[u8]) -> Option<u64>
    ensures { result ≡ digits_number bytes.now }
{
    if !is_number(bytes) {
        return None;
    }
    let value = capped_value(bytes);
    if value <= NUMBER_BOUND {
        Some(value)
    } else {
        None
    }
}

/// The value of a cell: an optional `+` or `-`, then digits as in `digits_value`; `None` where
/// the bytes are no cell. Takes no memory.
pub fn field_value(bytes: &[u8]) -> Option<i64>
    ensures { result ≡ cell_number bytes.now }
{
    match bytes {
        [b'+', digits @ ..] => Some(digits_value(digits)? as i64),
        [b'-', digits @ ..] => Some(-(digits_value(digits)? as i64)),
        _ => Some(digits_value(bytes)? as i64),
    }
}

pub(crate) fn is_digit(byte: u8) -> bool
    ensures { result ≡ is_digit byte }
{
    b'0' <= byte && byte <= b'9'
}

fn is_number(bytes: &[u8]) -> bool
    ensures { result ≡ is_number bytes.now }
{
    !bytes.is_empty() && all_digits(bytes)
}

fn all_digits(bytes: &[u8]) -> bool
    ensures { result ≡ list_all is_digit bytes.now }
{
    bytes.iter().all(|byte| is_digit(*byte))
}

/// The number that the digits write, or one past the bound where that is less.
fn capped_value(bytes: &[u8]) -> u64
    ensures { result ≡ fold (capped_step (NUMBER_BOUND + 1)) 0 bytes.now }
{
    bytes
        .iter()
        .fold(0, |value, byte| capped_digit(value, *byte))
}

/// One digit more.
fn capped_digit(value: u64, byte: u8) -> u64
    ensures { result ≡ capped_step (NUMBER_BOUND + 1) value byte }
{
    value
        .saturating_mul(10)
        .saturating_add(u64::from(byte.saturating_sub(b'0')))
        .min(NUMBER_BOUND + 1)
}
