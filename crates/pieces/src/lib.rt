// The bytes of a line that is being written: put together first, and kept until it is known whether the caller's output has
// room for them. Each method puts more bytes behind those that a piece has; the caller shows that they fit.
#![tactic(auto)]

ghost use Rattle.std.specs.Prelude.{◌≡◌, [], ◌∷◌, ◌+◌, ◌≤◌, ◌<◌, length};
ghost use Rattle.std.proofs.lemmas.List.Edits.{sets};
ghost use Rattle.lines.specs.Numbers.{decimal};
ghost use Rattle.lines.specs.Lists.{comma_list};
ghost use Rattle.pieces.specs.Pieces.{piece_room, empty_piece, grown};
ghost use Rattle.pieces.specs.Lines.{key_line, list_line, pair_line};

use std::marker::Model;

// How many bytes a piece has room for: `piece_room` of the contracts.
pub const ROOM: usize = 96;

// Not the kit's `ArrayVec`: it would stand inside such a struct all the same, since lines and numbers are put by methods, and
// no heap may be used. And no `fmt::Write`, whose `write_str` may not ask for room, so that each line would have an error that
// never comes.
#[derive(Clone, Copy)]
pub struct Piece {
    pub length: usize,
    pub bytes: [u8; ROOM],
}

// Clauses see the bytes that were put so far, and apart from them what lies behind.
impl Model for Piece {
    ghost use Rattle.pieces.specs.Pieces.{Bytes};

    ghost Value = { Bytes };

    ghost use Rattle.pieces.specs.Filling.{put_so_far, laid_out, Filled, same_length, same_bytes};

    ghost view = { put_so_far };

    ghost invariant = { Filled };

    ghost inverse = { laid_out };

    ghost inverse_ok = { λ p filled i. record {
      length = same_length p filled i;
      bytes = same_bytes p i;
    } };
}

pub fn empty_piece() -> Piece
    ensures { result ≡ empty_piece }
{
    Piece {
        length: 0,
        bytes: [0u8; ROOM],
    }
}

impl Piece {
    pub fn len(&self) -> usize
        ensures count { result ≡ length self.now.put }
        ensures within { result ≤ piece_room }
    {
        self.length // not `bytes.len()`, which is `ROOM`
    }

    pub fn put_bytes(&mut self, text: &[u8])
        requires { length self.old.put + length text.now ≤ piece_room }
        ensures { self.new ≡ grown self.old text.now }
    {
        let end = self.length + text.len();
        self.bytes[self.length..end].copy_from_slice(text);
        self.length = end;
    }

    pub fn put_byte(&mut self, byte: u8)
        requires { length self.old.put < piece_room }
        ensures { self.new ≡ grown self.old (byte ∷ []) }
    {
        self.put_bytes(&[byte]);
    }

    // The digits of a tenth of the number, if it has more than one, and its last digit.
    #[tactic(auto, using(lines::proofs::Decimals::decimal_digit, lines::proofs::Decimals::tens_length))]
    pub fn put_number(&mut self, n: u64)
        requires { length self.old.put + length (decimal n) ≤ piece_room }
        ensures { self.new ≡ grown self.old (decimal n) }
    {
        if n < 10 {
            self.put_byte(b'0' + n as u8);
        } else {
            self.put_number(n / 10);
            self.put_byte(b'0' + (n % 10) as u8);
        }
    }

    // Values parted by commas.
    #[tactic(auto, using(crate::proofs::Growing::grown_grown, crate::proofs::Growing::grown_none))]
    fn put_entries(&mut self, values: &[u8])
        requires some { 1 ≤ length values.now }
        requires fits { length self.old.put + length (comma_list values.now) ≤ piece_room }
        ensures { self.new ≡ grown self.old (comma_list values.now) }
    {
        self.put_number(values[0] as u64);
        for value in &values[1..] {
            self.put_byte(b',');
            self.put_number(*value as u64);
        }
    }

    // A line with a number behind its key. It and the two below are three functions: with a closure for the middle the contract
    // would have to say what the call put, and that is longer than three lines.
    #[tactic(auto, using(crate::proofs::Lengths::key_line_length, crate::proofs::Growing::grown_grown), unfolding(crate::specs::Lines::key_line))]
    pub fn put_line(&mut self, key: &[u8], n: u64)
        requires { length self.old.put + length (key_line key.now n) ≤ piece_room }
        ensures { self.new ≡ grown self.old (key_line key.now n) }
    {
        self.put_bytes(key);
        self.put_number(n);
        self.put_byte(b'\n');
    }

    // A line with values behind its key.
    #[tactic(auto, using(crate::proofs::Lengths::list_line_length, crate::proofs::Growing::grown_grown), unfolding(crate::specs::Lines::list_line))]
    pub fn put_list(&mut self, key: &[u8], values: &[u8])
        requires some { 1 ≤ length values.now }
        requires fits { length self.old.put + length (list_line key.now values.now) ≤ piece_room }
        ensures { self.new ≡ grown self.old (list_line key.now values.now) }
    {
        self.put_bytes(key);
        self.put_entries(values);
        self.put_byte(b'\n');
    }

    // A line with two numbers behind its key.
    #[tactic(auto, using(crate::proofs::Lengths::pair_line_length, crate::proofs::Growing::grown_grown), unfolding(crate::specs::Lines::pair_line))]
    pub fn put_pair(&mut self, key: &[u8], a: u64, b: u64)
        requires { length self.old.put + length (pair_line key.now a b) ≤ piece_room }
        ensures { self.new ≡ grown self.old (pair_line key.now a b) }
    {
        self.put_bytes(key);
        self.put_number(a);
        self.put_byte(b',');
        self.put_number(b);
        self.put_byte(b'\n');
    }

    // The piece's bytes at the front of an output that has room for them; what lies behind stays.
    pub fn copy_out(&self, out: &mut [u8])
        requires { length self.now.put ≤ length out.old }
        ensures { out.new ≡ sets out.old 0 self.now.put }
    {
        out[..self.length].copy_from_slice(&self.bytes[..self.length]);
    }
}
