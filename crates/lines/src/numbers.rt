// The one reader of numbers: decimal, without a leading zero, up to a limit. It stops as soon as the limit is passed, so no
// length of the text can make the value wrap.
ghost use Rattle.std.specs.Prelude.{◌≡◌};
ghost use Rattle.lines.specs.Numbers.{plain, digits_from, number};

#[tactic(auto, unfolding(crate::specs::Numbers::plain))]
fn is_plain(text: &[u8]) -> bool
    ensures { result ≡ plain text.now }
{
    match text {
        [] => false,
        [_] => true,
        [first, ..] => *first != b'0',
    }
}

#[tactic(auto, using(crate::proofs::Decimals::digit_by_digit))]
fn sum_digits(text: &[u8], limit: u32) -> Option<u32>
    ensures { result ≡ digits_from limit 0 text.now }
{
    let most = u64::from(limit);
    let mut sum: u64 = 0;
    for b in text {
        if !b.is_ascii_digit() {
            return None;
        }
        sum = 10 * sum + u64::from(*b - b'0');
        if most < sum {
            return None;
        }
    }
    Some(sum as u32)
}

// What a text says as a number, where it is one.
#[tactic(auto, unfolding(crate::specs::Numbers::number))]
pub fn read_number(text: &[u8], limit: u32) -> Option<u32>
    ensures { result ≡ number limit text.now }
{
    if !is_plain(text) {
        return None;
    }
    sum_digits(text, limit)
}
