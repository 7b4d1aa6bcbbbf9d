// What is lent to a call for its cuts, filled with a byte that shows which of its bytes stay, with eight bytes behind it.
use crate::parts::{behind, front, front_mut};
use trials::entries::Entries;

const STAYS: u8 = 238;

// The longest output that is lent takes 64 cuts.
// The length is how much is lent; no slice, as the bytes behind it are looked at too.
#[derive(Clone, Copy)]
pub(crate) struct Output {
    cuts: [Entries; 65],
    length: usize,
}

impl Output {
    pub(crate) fn new(length: usize) -> Output {
        Output {
            cuts: [[STAYS; 8]; 65],
            length,
        }
    }

    // What is lent.
    pub(crate) fn lent(&mut self) -> &mut [u8] {
        let length = self.length;
        front_mut(self.cuts.as_flattened_mut(), length)
    }

    // What is lent, and the eight bytes behind it.
    fn bytes(&self) -> &[u8] {
        front(self.cuts.as_flattened(), self.length.saturating_add(8))
    }

    pub(crate) fn cuts(&self) -> &[Entries] {
        &self.cuts
    }

    // Whether the bytes behind so many cuts are as they were before the call.
    pub(crate) fn stays_behind(&self, cuts: usize) -> bool {
        let rest = behind(self.bytes(), cuts.saturating_mul(8));
        rest.iter().all(|byte| *byte == STAYS)
    }

    // Whether each byte is that of another output.
    pub(crate) fn is_like(&self, other: &Output) -> bool {
        self.bytes() == other.bytes()
    }
}
