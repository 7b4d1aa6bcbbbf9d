// The lines that `cutcheck` prints for an answer, one behind the other in the output. Nothing here knows a store. Each function
// writes to the front of the output that it is lent, and gives how many bytes it wrote.
#![tactic(auto)]

ghost use Rattle.std.specs.Prelude.{◌≡◌, ◌+◌, ◌++◌, ◌*◌, ◌≤◌, length, is_some, IfSome};
ghost use Rattle.model.specs.Lists.{at};
ghost use Rattle.pieces.specs.Pieces.{grown};
ghost use Rattle.pieces.specs.Lines.{list_line, pair_line};
ghost use Rattle.answerlines.specs.Printing.{interval_key, interval_lines, witness_key, witness_line, head_lines, tail_lines, answer_lines};
ghost use Rattle.answerlines.specs.Outputs.{room, witness_entries, Writable, LinesAt};

use loglines::keys::{EVENTS, TABLETS};
use model::Record;
use pieces::{Piece, empty_piece};

const INTERVAL: [u8; 9] = *b"interval=";

const CUTS: [u8; 5] = *b"cuts=";

const WITNESS: [u8; 8] = *b"witness=";

const NO_WITNESS: [u8; 13] = *b"witness=none\n";

// `tablets` and `events`. Not by `fmt::Write`: see `Piece`.
#[tactic(auto, using(crate::proofs::Lines::tablets_most, crate::proofs::Lines::events_most))]
fn add_head(record: Record, out: &mut [u8]) -> usize
    requires { («record».tablets ≤ 8) × («record».events ≤ 2032) × (22 ≤ length out.old) }
    ensures { (result ≤ 22) × LinesAt out.old 0 (head_lines «record».tablets «record».events) result out.new }
{
    let mut head = empty_piece();
    head.put_line(&TABLETS, record.tablets as u64);
    head.put_line(&EVENTS, record.events as u64);
    head.copy_out(out);
    head.len()
}

// The line of an interval.
#[tactic(auto, using(crate::proofs::Lines::interval_most))]
fn add_interval(p: usize, count: u64, out: &mut [u8]) -> usize
    requires { (p ≤ 2032) × (35 ≤ length out.old) }
    ensures { (result ≤ 35) × LinesAt out.old 0 (pair_line interval_key p count) result out.new }
{
    let mut line = empty_piece();
    line.put_pair(&INTERVAL, p as u64, count);
    line.copy_out(out);
    line.len()
}

// The lines of all intervals, by their counts.
fn add_intervals(counts: &[u64], out: &mut [u8]) -> usize
    requires { (length counts.now ≤ 2033) × (35 * length counts.now ≤ length out.old) }
    ensures { (result ≤ 35 * length counts.now) × LinesAt out.old 0 (interval_lines (at counts.now) (length counts.now)) result out.new }
{
    let mut length = 0;
    for (p, count) in counts.iter().enumerate() {
        length += add_interval(p, *count, &mut out[length..]);
    }
    length
}

// `witness` with a cut's entries. Their bounds are asked and are no type: only three private functions of this file have them.
fn put_cut(line: &mut Piece, entries: &[u8])
    requires { (1 ≤ length entries.now) × (length entries.now ≤ 8) × (length line.old.put ≤ 56) }
    ensures put { line.new ≡ grown line.old (list_line witness_key entries.now) }
    ensures short { length line.new.put ≤ length line.old.put + 40 }
{
    line.put_list(&WITNESS, entries);
}

// `witness` with the first n entries of a cut that has eight or more, or with `none`.
#[tactic(auto, unfolding(crate::specs::Printing::witness_line))]
fn put_witness(line: &mut Piece, n: usize, witness: Option<&[u8]>)
    requires { (1 ≤ n) × (n ≤ 8) × IfSome witness (λ cut. 8 ≤ length cut.now) × (length line.old.put ≤ 56) }
    ensures put { line.new ≡ grown line.old (witness_line n (is_some witness.entry) (witness_entries witness.entry)) }
    ensures short { length line.new.put ≤ length line.old.put + 40 }
{
    match witness {
        Some(cut) => put_cut(line, &cut[..n]),
        None => line.put_bytes(&NO_WITNESS),
    }
}

// `cuts` and `witness`.
#[tactic(auto, using(crate::proofs::Lines::cuts_most))]
fn add_tail(n: usize, sum: u64, witness: Option<&[u8]>, out: &mut [u8]) -> usize
    requires { (1 ≤ n) × (n ≤ 8) × IfSome witness (λ cut. 8 ≤ length cut.now) × (66 ≤ length out.old) }
    ensures { (result ≤ 66) × LinesAt out.old 0 (tail_lines n sum (is_some witness.entry) (witness_entries witness.entry)) result out.new }
{
    let mut tail = empty_piece();
    tail.put_line(&CUTS, sum);
    put_witness(&mut tail, n, witness);
    tail.copy_out(out);
    tail.len()
}

// All lines of an answer; gives their length.
pub fn write_answer(
    record: Record,
    counts: &[u64],
    sum: u64,
    witness: Option<&[u8]>,
    out: &mut [u8],
) -> usize
    requires { Writable «record» counts.now witness out.old }
    ensures { (result ≤ room) × LinesAt out.old 0 (answer_lines «record».tablets «record».events (at counts.now) sum (is_some witness.entry) (witness_entries witness.entry)) result out.new }
{
    let mut length = add_head(record, out);
    let events = record.events as usize;
    length += add_intervals(&counts[..=events], &mut out[length..]);
    length += add_tail(record.tablets as usize, sum, witness, &mut out[length..]);
    length
}
