// The printing program: reads the account book from accounts.bin and records of 544 octets from standard input, and prints a line for each.
#![tactic(auto)]

mod turn;

ghost use Rattle.std.specs.Prelude.{IfOk};
ghost use Rattle.io.specs.Counts.{IsPrefixLen};

use lines::{record, text};
use records::{book, layout};
use session::State;
use std::fs::File;
use std::io;
use std::io::Read;

// Reads until the octets are full, the input ends or a read fails, and tells how many it put at their start.
fn read_full<R: Read>(input: &mut R, octets: &mut [u8]) -> usize
    ensures { IsPrefixLen result octets.new }
{
    // std's `read_exact` tells no count where the input ends early, so the count is kept here.
    let mut done = 0;
    while done < octets.len() {
        match input.read(&mut octets[done..]) {
            Ok(0) | Err(_) => break,
            Ok(n) => done += n,
        }
    }
    done
}

// Reads one record, takes it, prints its line and tells the state to go on with: none where the input ends, and after a bad record.
fn read_turn(
    rt: &HostRuntime,
    book: &[u8],
    table: &mut [u8],
    state: State,
) -> io::Result<Option<State>> {
    let mut asked = [0u8; record::SIZE];
    let mut input = rt.stdin();
    let n = read_full(&mut input, &mut asked);
    if n == 0 {
        return Ok(None);
    }
    let mut line = [0u8; text::ROOM];
    let turned = turn::turn(book, table, state, &asked[..n], &mut line);
    rt.write_all(&line[..turned.length])?;
    Ok(turned.flow.continue_value())
}

// A proved loop has to end, and nothing says that the input does: it takes a number of turns that no run uses up.
fn run(rt: &HostRuntime, book: &[u8], table: &mut [u8]) -> io::Result<()> {
    let mut state = State::fresh();
    for _ in 0..u64::MAX {
        match read_turn(rt, book, table, state)? {
            Some(next) => state = next,
            None => break,
        }
    }
    Ok(())
}

// Reads the book, and tells how many octets it put at the start. A first read tells a file that cannot be read from one that is empty.
fn read_book(rt: &HostRuntime, book: &mut [u8]) -> io::Result<usize>
    ensures { IfOk result (λ count. IsPrefixLen count book.new) }
{
    let mut file = File::open(rt, BOOK_NAME)?;
    let first = file.read(book)?;
    let rest = read_full(&mut file, &mut book[first..]);
    Ok(first + rest)
}

// One octet more than a book has: a book that is too long is lent as such.
const BOOK_READ: usize = book::SIZE + 1;

const BOOK_NAME: &str = "accounts.bin";

// What the system says of an error, without its number for it.
fn without_number(said: &str) -> &str {
    match said.split_once(" (os error ") {
        Some((words, _)) => words,
        None => said,
    }
}

// Tells on standard error why the book can't be read.
fn fail(rt: &HostRuntime, error: &io::Error) -> io::Result<()> {
    let said = format!(in rt.alloc(); "{error}")?;
    let words = without_number(said.as_str());
    eprintln!(rt; "{BOOK_NAME}: {words}")
}

fn main(rt: HostRuntime) -> io::Result<()> {
    let mut octets = [0u8; BOOK_READ];
    let n = match read_book(&rt, &mut octets) {
        Ok(n) => n,
        Err(error) => return fail(&rt, &error),
    };
    let mut table = [0u8; layout::TABLE_SIZE];
    run(&rt, &octets[..n], &mut table)
}
