// The texts of the file `stdin`, each below a line `>R,L,n,T` that says what reading it gives: refusal number and line (0,0
// for a text that is read), and the record. A text goes up to the line end before the next `>`, which is not part of it.
use crate::lend::{Told, read};
use crate::notes::{Kind, Notes};
use crate::stores::{Lent, Store};

// The most that is read, and the most cases that are tried.
pub(crate) const INPUT_SIZE: usize = 8192;

const MOST_CASES: usize = 1000;

// Takes a number of the header from the front of the input, and the byte that ends it.
fn take_number(input: &mut &[u8]) -> usize {
    let length = input
        .iter()
        .take(8)
        .take_while(|byte| **byte >= b'0')
        .count();
    let (digits, rest) = input.split_at_checked(length).unwrap_or((*input, &[]));
    *input = rest.get(1..).unwrap_or(&[]);
    digits.iter().fold(
        0,
        |value, digit| 10 * (value % 65536) + usize::from(digit.saturating_sub(b'0')),
    )
}

// Takes a header, from behind its `>` on.
fn take_header(input: &mut &[u8]) -> Told {
    Told {
        number: take_number(input),
        line: take_number(input),
        tablets: take_number(input),
        events: take_number(input),
    }
}

// The text at the front of the input, and what stands behind its line end.
fn split_text(input: &[u8]) -> (&[u8], &[u8]) {
    let end = input.windows(2).position(|pair| pair == b"\n>".as_slice());
    match end.and_then(|end| input.split_at_checked(end)) {
        Some((text, rest)) => (text, rest.get(2..).unwrap_or(&[])),
        None => (input, &[]),
    }
}

// Each text of the input in turn; how many were begun is noted.
pub(crate) fn try_cases(notes: &mut Notes, input: &[u8]) {
    let mut rest = input.get(1..).unwrap_or(&[]);
    for _ in 0..MOST_CASES {
        let want = take_header(&mut rest);
        if rest.is_empty() {
            break;
        }
        let (text, behind) = split_text(rest);
        notes.cases = notes.cases.saturating_add(1);
        let got = read(text, &mut Store::empty(Lent::Roomy));
        notes.same_told(Kind::Fixed, want, got, text);
        rest = behind;
    }
}
