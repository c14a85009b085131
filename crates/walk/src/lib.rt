// A line is carried out on the walk's buffers, and what it prints is laid on a page.
#![tactic(auto)]

ghost use Rattle.walk_text.specs.Page.{SameSlice};

use walk_kinds::{Buffers, Told, Walk};
use walk_lines::Line;
use walk_text::Page;

// `op=start`, and the host's side with it.
fn start(walk: &mut Walk, buffers: &mut Buffers, vars: usize) -> Told {
    let lent = buffers.lend(walk.rooms, vars);
    let told = walk_calls::start(walk, lent, vars);
    if told.number == 0 {
        walk_host::begin(walk, buffers);
    }
    told
}

// The numbers of a list, which stand from a place on up to another.
fn list(numbers: &[u32; 2048], from: usize, to: usize) -> &[u32] {
    let to = to.min(2048);
    &numbers[from.min(to)..to]
}

// A line that was read is carried out.
fn carry_out(
    walk: &mut Walk,
    line: Line,
    numbers: &[u32; 2048],
    buffers: &mut Buffers,
    page: &mut Page<'_>,
)
    ensures { SameSlice page.old.bytes page.new.bytes }
{
    let mut lent = buffers.lend(walk.rooms, walk.state.vars);
    let (op, told): (&[u8], Told) = match line {
        Line::Unreadable => return walk_show::unreadable(page),
        Line::Implied(lit) => return walk_show::implied(page, walk.state, &lent, lit),
        Line::Literals(cref) => return walk_show::literals(page, walk.state, &lent, cref),
        Line::View(from, end) => {
            return walk_show::view(page, lent.words, from as usize, end as usize);
        }
        Line::Show => return walk_show::show(page, walk.state, lent.rec),
        Line::Dump => return walk_show::dump(page, walk, &lent),
        Line::Tails => return walk_show::tails(page, walk, &lent),
        Line::Start(vars) => (b"start", start(walk, buffers, vars as usize)),
        Line::Long(tier, glue, n) => (
            b"long",
            walk_calls::long(
                walk,
                lent,
                tier as usize,
                glue as usize,
                list(numbers, 2, n),
            ),
        ),
        Line::Binary(n) => (
            b"binary",
            walk_calls::binary(walk, lent, list(numbers, 0, n)),
        ),
        Line::Tier(cref, tier) => (b"tier", walk_calls::tier(walk, lent, cref, tier as usize)),
        Line::Delete(cref) => (b"delete", walk_calls::delete(walk, lent, cref)),
        Line::Bump(cref) => (b"bump", walk_calls::bump(walk, lent, cref)),
        Line::Decay => (b"decay", walk_calls::decay(walk, lent)),
        Line::Locals => (b"locals", walk_calls::locals(walk, lent)),
        Line::Mids => (b"mids", walk_calls::mids(walk, lent)),
        Line::Collect => (b"collect", walk_calls::collect(walk, lent)),
        Line::Units => (b"units", walk_calls::units(walk, lent)),
        Line::Simplify => (b"simplify", walk_calls::simplify(walk, lent)),
        Line::Empty => (b"empty", walk_calls::empty(walk, lent)),
        Line::Assess(n) => (
            b"assess",
            walk_calls::assess(walk, lent, list(numbers, 0, n)),
        ),
        Line::Room(rooms) => (b"room", walk_host::room(walk, rooms)),
        Line::Unit(lit) => (b"unit", walk_host::unit(walk, &mut lent, lit)),
        Line::Assign(lit, kind, value, level) => (
            b"assign",
            walk_host::assign(walk, &mut lent, lit, kind, value, level),
        ),
        Line::Undo => (b"undo", walk_host::undo(walk, &mut lent)),
        Line::Level(level) => (b"level", walk_host::level(walk, level)),
        Line::Depth(var, level) => (b"depth", walk_host::depth(walk, &mut lent, var, level)),
        Line::Poke(buffer, at, value) => (
            b"poke",
            walk_host::poke(walk, &mut lent, buffer, at, value),
        ),
        Line::Answers(on) => (b"answers", walk_host::answers(walk, on)),
    };
    walk_show::answer(page, op, told, walk.answers);
}

// A line of bytes, whatever they are, is read and carried out. The page is filled from its start.
pub fn walk_line(
    walk: &mut Walk,
    text: &[u8],
    numbers: &mut [u32; 2048],
    buffers: &mut Buffers,
    page: &mut Page<'_>,
)
    ensures { SameSlice page.old.bytes page.new.bytes }
{
    page.next = 0;
    let line = walk_lines::read_line(text, numbers);
    carry_out(walk, line, numbers, buffers, page);
}
