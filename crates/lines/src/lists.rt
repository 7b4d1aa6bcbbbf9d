// The one reader of lists: so many numbers up to 255, parted by commas.
ghost use Rattle.std.specs.Prelude.{◌≡◌, ◌≤◌};
ghost use Rattle.lines.specs.Lists.{listed, listed_by, entries};

use crate::find::find_byte;
use crate::numbers::read_number;

#[tactic(auto, using(crate::proofs::Entries::entry_by_entry))]
fn read_entries(text: &[u8], count: usize) -> Option<[u8; 8]>
    requires { (1 ≤ count) × (count ≤ 8) }
    ensures { result ≡ listed_by (entries count text.now) }
{
    let mut values = [0u8; 8];
    let mut rest = text;
    // A for over the index: it leaves early, where an entry is missing or is no number.
    for j in 0..count - 1 {
        let length = find_byte(rest, b',');
        if length == rest.len() {
            return None;
        }
        values[j] = read_number(&rest[..length], 255)? as u8;
        rest = &rest[length + 1..];
    }
    values[count - 1] = read_number(rest, 255)? as u8;
    Some(values)
}

// What a text says as a list of one to eight entries; the values behind the listed ones are 0.
// The number is how many entries the line has to have, not the text's length.
#[tactic(auto, unfolding(crate::specs::Lists::listed))]
pub fn read_list(text: &[u8], count: usize) -> Option<[u8; 8]>
    ensures { result ≡ listed count text.now }
{
    if count == 0 || 8 < count {
        return None;
    }
    read_entries(text, count)
}
