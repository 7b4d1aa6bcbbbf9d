// Reads standard input, a question and a trace text, and writes what the crate `report` makes of it. All that is proved of
// the answer is proved there; here only that nothing is out of bounds and that the program ends.
#![tactic(auto)]

use report::{Buffers, CLOCKS_SIZE, INPUT_SIZE, OUTPUT_SIZE, SLOTS};

// The file descriptors: of std's streams the crate `io` needs no more than the C library's `read` and `write`, so that the
// program rests on no other contract of that library.
const STDIN: i32 = 0;

const STDOUT: i32 = 1;

const STDERR: i32 = 2;

// A write that fails is said on standard error; the exit status is 0 all the same.
fn put(answer: &[u8]) {
    if !io::write_all(STDOUT, answer) {
        io::write_all(STDERR, b"cutcheck: the answer could not be written\n");
    }
}

fn main() {
    let mut input = [0; INPUT_SIZE];
    let mut buffers = Buffers {
        clocks: &mut [0; CLOCKS_SIZE],
        held: &mut [0; SLOTS],
        order: &mut [0; SLOTS],
    };
    let mut out = [0; OUTPUT_SIZE];
    let length = io::read_full(STDIN, &mut input);
    let reported = report::make_report(&input[..length], &mut buffers, &mut out);
    // Nothing is written before the answer is whole.
    if let Some(answer) = out.get(..reported.length) {
        put(answer);
    }
}
