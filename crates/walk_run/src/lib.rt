// The walk program: reads at most 64 KiB from standard input and carries out one line after the other.
#![tactic(auto)]

ghost use Rattle.std.specs.Prelude.{◌≤◌, length, IfOk};

use kinds::{ClauseActivity, State};
use std::io;
use std::io::Read;
use walk_kinds::{Buffers, Rooms, Walk};
use walk_text::Page;

// "Before the first `start`, and after nothing else, V is 0 and all else is 0". All rooms are lent whole.
fn begin() -> Walk {
    Walk {
        state: State {
            vars: 0,
            words: 0,
            clauses: 0,
            tiers: [0; 4],
            recorded: 0,
            counts: [0; 4],
            garbage: 0,
            binary: 0,
            activity: ClauseActivity {
                bump: 0.0,
                inv_decay: 0.0,
            },
        },
        rooms: Rooms {
            words: 16384,
            clauses: 4096,
            irred: 4096,
            core: 4096,
            mid: 4096,
            local: 4096,
            rows: 16384,
            rec: 16384,
        },
        assigned: 0,
        level: 0,
        answers: false,
    }
}

// A page on which nothing stands yet.
fn blank(bytes: &mut [u8; 1048576]) -> Page<'_> {
    Page { bytes, next: 0 }
}

fn write_page(rt: &impl Print, page: &Page<'_>) -> io::Result<()> {
    let filled = page.next.min(page.bytes.len());
    rt.write_all(&page.bytes[..filled])
}

// Every line of a text, with what it prints on standard output. Nothing follows the last line feed.
fn walk_through(rt: &impl Print, text: &[u8]) -> io::Result<()> {
    let mut walk = begin();
    let mut buffers = Buffers {
        words: [0; 16384],
        clauses: [0; 4096],
        irred: [0; 4096],
        core: [0; 4096],
        mid: [0; 4096],
        local: [0; 4096],
        rows: [0; 16384],
        counts: [0; 2048],
        rec: [0; 16384],
        values: [0; 1024],
        kinds: [0; 1024],
        reasons: [0; 1024],
        levels: [0; 1024],
        trail: [0; 1024],
    };
    let mut numbers = [0; 2048];
    let mut bytes = [0; 1048576];
    let mut page = blank(&mut bytes);
    for line in text.split_inclusive(|b| *b == b'\n') {
        let line = line.strip_suffix(b"\n").unwrap_or(line);
        walk::walk_line(&mut walk, line, &mut numbers, &mut buffers, &mut page);
        write_page(rt, &page)?;
    }
    Ok(())
}

// Reads until the buffer is full or the input ends, and returns how many bytes of the buffer it filled.
fn read_full(input: &mut impl Read, buf: &mut [u8]) -> io::Result<usize>
    ensures { IfOk result (λ n. n ≤ length buf.new) }
{
    let mut filled = 0;
    // no `for`: a read fills as much as it likes
    while filled < buf.len() {
        let n = input.read(&mut buf[filled..])?;
        if n == 0 {
            break;
        }
        filled += n;
    }
    Ok(filled)
}

// Reads standard input, carries out its lines and writes what they print. A read or a write that fails ends it there, with its error.
pub fn run(rt: &(impl Input + Print)) -> io::Result<()> {
    let mut input = [0u8; 65536];
    let n = read_full(&mut rt.reader(), &mut input)?;
    walk_through(rt, &input[0..n])
}
