// The set of tablets that an ask line names, as a mask.
ghost use Rattle.std.specs.Prelude.{◌≡◌, ◌≤◌};
ghost use Rattle.model.specs.Numbers.{column};
ghost use Rattle.askline.specs.Sets.{bit, commas, naming, named_set};

use lines::lists::read_list;
use model::Tablet;

#[tactic(auto, using(crate::proofs::Naming::commas_is))]
fn count_commas(text: &[u8]) -> usize
    ensures { result ≡ commas text.now }
{
    text.iter().filter(|b| **b == b',').count()
}

// The bit of a tablet, from tablet 1. No conversion: built by rule 34.
#[tactic(auto, using(crate::proofs::Naming::bit_is))]
fn bit_of(tablet: Tablet) -> u8
    requires { (1 ≤ tablet.0) × (tablet.0 ≤ 8) }
    ensures { result ≡ bit (column tablet) }
{
    1 << (tablet.0 - 1)
}

// A list's entries as tablets: each above the one before, and at most 8.
#[tactic(auto, using(crate::proofs::Naming::names))]
fn name_tablets(entries: &[u8]) -> Option<u8>
    ensures { result ≡ naming 0 0 entries.now }
{
    let mut last: u8 = 0;
    let mut mask: u8 = 0;
    for tablet in entries {
        if *tablet <= last || 8 < *tablet {
            return None;
        }
        mask += bit_of(Tablet(*tablet));
        last = *tablet;
    }
    Some(mask)
}

// The mask of the tablets that a list names, where it is one: it has an entry more than it has commas.
#[tactic(auto, using(crate::proofs::Naming::set_of_many), unfolding(crate::specs::Sets::named_set))]
pub(crate) fn read_set(text: &[u8]) -> Option<u8>
    ensures { result ≡ named_set text.now }
{
    let parting = count_commas(text);
    if 7 < parting {
        return None;
    }
    let values = read_list(text, parting + 1)?;
    name_tablets(&values[..parting + 1])
}
