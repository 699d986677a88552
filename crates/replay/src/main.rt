// Runs the oracle's stored answers again, from standard input. docs/ORACLE.md has the form of the list and says how it was made.
// For each section of the list a line: its name, how many answers were compared, how many differ. Before it, a line for each row that differs.
#![tactic(auto)]

mod adrc; // adrc.rt: 002
mod buffer; // buffer.rt: what a call is lent
mod desks; // desks.rt: the desk's calls
mod geo; // geo.rt: 000
mod lent; // lent.rt: the calls on lent bytes
mod list; // list.rt: what the list is read by
mod numbers; // numbers.rt: 003 and 004
mod parts; // parts.rt: a row, and the structs that the image has no place for
mod traj; // traj.rt: 001

use list::{Stop, fill, read_up_to};
use parts::Row;
use std::fmt;
use std::io::{self, Read};
use words::word_at;

// The word that a list begins with: ANSW.
const MAGIC: u32 = 0x5753_4e41;

// ---- an answer of a routine

fn answer(n: u32, i: &Row, o: &mut Row) {
    match n {
        0..=99 => geo::answer(n, i, o),
        100..=199 => traj::answer(n, i, o),
        200..=299 => adrc::answer(n, i, o),
        _ => numbers::answer(n, i, o),
    }
}

// The next row of the list, with so many words, into a blank one: an answer of this size would be copied.
fn fill_row(reader: &mut impl Read, words: u32, row: &mut Row) -> Result<(), Stop> {
    let Some(stored) = row.get_mut(..4 * words as usize) else {
        return Err(Stop::Cut);
    };
    fill(reader, stored)
}

// ---- sections

// What a section's head says, but for its name.
#[derive(Clone, Copy)]
struct Head {
    number: u32,
    given: u32,
    answered: u32,
    rows: u32,
}

impl From<[u8; 16]> for Head {
    fn from(four: [u8; 16]) -> Head {
        Head {
            number: word_at(&four, 0),
            given: word_at(&four, 1),
            answered: word_at(&four, 2),
            rows: word_at(&four, 3),
        }
    }
}

impl Head {
    // Whether a routine answers as the next row says. All 36 words are compared, so that an answer of more words than are stored is seen.
    fn is_answer(self, reader: &mut impl Read) -> Result<bool, Stop> {
        let mut given = [0u8; 144];
        let mut stored = [0u8; 144];
        let mut answered = [0u8; 144];
        fill_row(reader, self.given, &mut given)?;
        fill_row(reader, self.answered, &mut stored)?;
        answer(self.number, &given, &mut answered);
        Ok(answered == stored)
    }

    fn is_same(self, reader: &mut impl Read) -> Result<bool, Stop> {
        match self.number {
            0..=499 => self.is_answer(reader),
            500..=511 => lent::is_same(reader, self.number),
            _ => desks::is_same(reader, self.number),
        }
    }
}

#[derive(Clone, Copy, Default)]
struct Tally {
    compared: u64,
    differ: u64,
}

impl Tally {
    // No list has 2^64 answers; so that nothing need be proved of it, the counts may wrap.
    fn add(&mut self, more: Tally) {
        self.compared = self.compared.wrapping_add(more.compared);
        self.differ = self.differ.wrapping_add(more.differ);
    }
}

impl fmt::Display for Tally {
    fn fmt<W: fmt::Write>(&self, f: &mut fmt::Formatter<W>) -> fmt::Result {
        write!(f, "{} compared, {} differ", self.compared, self.differ)
    }
}

// A row that differs is named.
fn section(
    rt: &impl Print,
    reader: &mut impl Read,
    head: Head,
    tally: &mut Tally,
) -> Result<(), Stop> {
    for row in 0..head.rows {
        let same = head.is_same(reader)?;
        if !same {
            println!(rt; "row {row} differs")?;
        }
        tally.add(Tally {
            compared: 1,
            differ: u64::from(!same),
        });
    }
    Ok(())
}

fn print_counts(rt: &impl Print, name: &[u8; 48], tally: Tally) -> io::Result<()> {
    rt.write_all(name)?;
    println!(rt; "{tally}")
}

// The head of a section is four words and a name. A list that ends within the words ends before the name.
fn next_section(rt: &impl Print, reader: &mut impl Read, all: &mut Tally) -> Result<(), Stop> {
    let mut four = [0u8; 16];
    let mut name = [0u8; 48];
    read_up_to(reader, &mut four)?;
    fill(reader, &mut name)?;
    let mut tally = Tally::default();
    let read = section(rt, reader, Head::from(four), &mut tally);
    if let Err(Stop::Io(_)) = read {
        return read;
    }
    print_counts(rt, &name, tally)?;
    all.add(tally);
    read
}

fn sections(
    rt: &impl Print,
    reader: &mut impl Read,
    count: u32,
    all: &mut Tally,
) -> Result<(), Stop> {
    for _ in 0..count {
        next_section(rt, reader, all)?;
    }
    Ok(())
}

fn compare(rt: &impl Print, reader: &mut impl Read, count: u32, answers: u32) -> io::Result<()> {
    let mut all = Tally::default();
    let whole = match sections(rt, reader, count, &mut all) {
        Ok(()) => all.compared == u64::from(answers),
        Err(Stop::Cut) => false,
        Err(Stop::Io(error)) => return Err(error),
    };
    print_counts(rt, b"all                                             ", all)?;
    // the list may be of another form or length than its head says
    if !whole || read_up_to(reader, &mut [0u8; 1])? > 0 {
        println!(rt; "the list is cut, too long, or not of this form")?;
    }
    Ok(())
}

// Of a head that is cut, what there is counts, so `fill` does not serve.
fn main(rt: HostRuntime) -> io::Result<()> {
    let mut reader = rt.stdin();
    let mut head = [0u8; 12];
    read_up_to(&mut reader, &mut head)?;
    if word_at(&head, 0) == MAGIC {
        compare(&rt, &mut reader, word_at(&head, 1), word_at(&head, 2))
    } else {
        println!(rt; "not a list of answers")
    }
}
