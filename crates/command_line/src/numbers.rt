ghost use Rattle.std.specs.Prelude.{◌≡◌, ◌<◌, ◌^◌};
ghost use Rattle.command_line.specs.Numbers.{number_of as number_in, value_from as value_behind};

// The number whose digits so far make `value`, where it stays below 2^32.
#[tactic(auto, unfolding(crate::specs::Numbers::value_from))]
fn value_from(value: u32, digits: &[u8]) -> Option<u32>
    ensures { result ≡ value_behind value digits.now }
{
    let [digit, rest @ ..] = digits else {
        return Some(value);
    };
    if !digit.is_ascii_digit() {
        return None;
    }
    let longer = u64::from(value) * 10 + u64::from(*digit - b'0');
    match u32::try_from(longer) {
        Ok(longer) => value_from(longer, rest),
        Err(_) => None,
    }
}

/// The decimal number that a text writes, digits without a sign and without a leading zero. It is
/// refused where it isn't such a number, or isn't below 2^32.
#[tactic(auto, unfolding(crate::specs::Numbers::number_of))]
pub fn number_of(text: &str) -> Option<u32>
    ensures { result ≡ number_in text.now }
{
    match text.as_bytes() {
        [] => None,
        [b'0'] => Some(0),
        [b'0', ..] => None,
        digits => value_from(0, digits),
    }
}
