// The library's calls on cuts and its test of a store, each of which may be asked for as a value, and what they said in one
// form, so that all answers are compared alike.
use crate::moving::list_by_moving;
use cuts::{Gathered, Listed, Moved, ask, count, gather, list};
use model::{Cut, Job, Place, Position, Refusal};
use std::fmt;
use store::{Trace, check};
use trials::entries::Entries;

// The calls. `Move` is `List` through a lent place.
#[derive(Clone, Copy)]
pub(crate) enum Call {
    Check,
    Count(Position),
    Ask(Job),
    List(Position, Place),
    Move(Position, Place),
    Gather(Position, Position),
}

// What a call says, of all six in one form, so that one function judges each of them.
#[derive(Clone, Copy, PartialEq, Eq)]
pub(crate) enum Word {
    Passed,
    Done,
    More,
    Found,
    NoCut,
    Refused(Refusal),
}

impl Word {
    pub(crate) fn of_test<T: Drop>(outcome: Result<T, Refusal>) -> Word {
        match outcome {
            Ok(_) => Word::Passed,
            Err(why) => Word::Refused(why),
        }
    }

    // Whether something of a listing or a gathering remains.
    pub(crate) fn of_rest(more: bool) -> Word {
        if more { Word::More } else { Word::Done }
    }
}

impl fmt::Debug for Word {
    fn fmt<W: fmt::Write>(&self, f: &mut fmt::Formatter<W>) -> fmt::Result {
        match self {
            Word::Passed => write!(f, "passed"),
            Word::Done => write!(f, "done"),
            Word::More => write!(f, "more"),
            Word::Found => write!(f, "found"),
            Word::NoCut => write!(f, "no cut"),
            Word::Refused(why) => write!(f, "refused {}", u8::from(*why)),
        }
    }
}

// What a call that found nothing or was refused says of a cut.
pub(crate) const NO_PLACE: Place = Place {
    begun: false,
    cut: Cut { counts: [0; 8] },
};

// The place behind a cut.
pub(crate) fn place_behind(counts: Entries) -> Place {
    Place {
        begun: true,
        cut: Cut { counts },
    }
}

// What a call said: its word, how many it wrote or counted, a place or a cut, and the position where a gathering stopped. One
// form for six calls, so that one function judges each of them.
#[derive(Clone, Copy)]
pub(crate) struct Said {
    pub word: Word,
    pub number: u64,
    pub place: Place,
    pub position: Position,
}

impl From<Word> for Said {
    fn from(word: Word) -> Said {
        Said {
            word,
            number: 0,
            place: NO_PLACE,
            position: Position(0),
        }
    }
}

impl From<Refusal> for Said {
    fn from(why: Refusal) -> Said {
        Said::from(Word::Refused(why))
    }
}

impl From<u64> for Said {
    fn from(number: u64) -> Said {
        Said {
            number,
            ..Said::from(Word::Passed)
        }
    }
}

impl From<Option<Cut>> for Said {
    fn from(found: Option<Cut>) -> Said {
        match found {
            None => Said::from(Word::NoCut),
            Some(cut) => Said {
                place: Place { begun: false, cut },
                ..Said::from(Word::Found)
            },
        }
    }
}

impl From<Listed> for Said {
    fn from(listed: Listed) -> Said {
        Said {
            number: listed.written as u64,
            place: listed.place,
            ..Said::from(Word::of_rest(listed.more))
        }
    }
}

impl From<Moved> for Said {
    fn from(moved: Moved) -> Said {
        Said {
            number: moved.written as u64,
            ..Said::from(Word::of_rest(moved.more))
        }
    }
}

impl From<Gathered> for Said {
    fn from(gathered: Gathered) -> Said {
        Said {
            number: gathered.written as u64,
            place: gathered.place,
            position: gathered.position,
            ..Said::from(Word::of_rest(gathered.more))
        }
    }
}

fn given<T: Into<Said>>(answer: Result<T, Refusal>) -> Said {
    match answer {
        Ok(given) => given.into(),
        Err(why) => Said::from(why),
    }
}

// A listing by value says the place, but where it is refused: then the place stays as it was given.
fn listed(place: Place, answer: Result<Listed, Refusal>) -> Said {
    match answer {
        Ok(listed) => Said::from(listed),
        Err(why) => Said {
            place,
            ..Said::from(why)
        },
    }
}

// The call that is asked for. A match, no closures: a call is data, which tables of calls are made of.
pub(crate) fn ask_library(trace: Trace, call: Call, out: &mut [u8]) -> Said {
    match call {
        Call::Check => Said::from(Word::of_test(check(trace))),
        Call::Count(position) => given(count(trace, position)),
        Call::Ask(job) => given(ask(trace, job)),
        Call::List(position, place) => listed(place, list(trace, position, place, out)),
        Call::Move(position, place) => {
            let (moved, place) = list_by_moving(trace, position, place, out);
            Said {
                place,
                ..given(moved)
            }
        }
        Call::Gather(first, last) => given(gather(trace, first, last, out)),
    }
}
