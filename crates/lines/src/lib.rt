// The lines of a listing (document 01, "The nightly program") and of a census (document 02, R-7), put into a lent buffer.
//
// Every function puts its text behind what the buffer is filled with, and leaves every other byte as it was. The line of
// a block takes at most 128 bytes, that of the counts 112: words, and numbers of at most 20 digits.

#![tactic(auto)]

ghost use Rattle.std.specs.Prelude.{◌+◌, ◌*◌, ◌≤◌, ◌≡◌, List, ◌++◌, length};
ghost use Rattle.ac.specs.Values.{Binding, laid_out};
ghost use Rattle.buffer.specs.Filled.{HasRoomFor, Puts, PutsAtMost};
ghost use Rattle.text.specs.Ascii.{ascii};
ghost use Rattle.text.specs.Text.{name};
ghost use Rattle.lines.specs.Putting.{PutsWithin};
ghost use Rattle.lines.specs.Lines.{labelled, rows_line, unifiers_line, none_line, refusal, refused_line, naming_line, block_line, page_end, end_line, substitution_line, counts_line, total_line, last_line, too_long, closing_lines};

use buffer::filled::Filled;
use tally::{Closing, LastLine, Line, Totals};
use text::{put_name, put_number, put_substitution};

// A word and a number behind it, which has at most 20 digits.
fn put_labelled(out: &mut Filled, word: &[u8], number: u64)
    requires { HasRoomFor out.old (length word.now + 20) }
    ensures { PutsWithin (length word.now + 20) out.old (labelled word.now number) out.new }
{
    out.put(word);
    put_number(out, number);
}

// `block P rows H K`.
fn put_rows(out: &mut Filled, place: u64, balanced: u64, of_constants: u64)
    requires { HasRoomFor out.old 128 }
    ensures { PutsWithin 128 out.old (rows_line place balanced of_constants) out.new }
{
    put_labelled(out, b"block ", place);
    put_labelled(out, b" rows ", balanced);
    put_labelled(out, b" ", of_constants);
    out.put(b"\n");
}

// `block P unifiers N`.
fn put_unifiers(out: &mut Filled, place: u64, unifiers: u64)
    requires { HasRoomFor out.old 128 }
    ensures { PutsWithin 128 out.old (unifiers_line place unifiers) out.new }
{
    put_labelled(out, b"block ", place);
    put_labelled(out, b" unifiers ", unifiers);
    out.put(b"\n");
}

// `block P none`.
fn put_none(out: &mut Filled, place: u64)
    requires { HasRoomFor out.old 128 }
    ensures { PutsWithin 128 out.old (none_line place) out.new }
{
    put_labelled(out, b"block ", place);
    out.put(b" none\n");
}

// `block P refused X`, without the line's end.
fn put_refusal(out: &mut Filled, place: u64, number: u8)
    requires { HasRoomFor out.old 64 }
    ensures { PutsWithin 64 out.old (refusal place number) out.new }
{
    put_labelled(out, b"block ", place);
    put_labelled(out, b" refused ", u64::from(number));
}

// `block P refused X`.
fn put_refused(out: &mut Filled, place: u64, number: u8)
    requires { HasRoomFor out.old 128 }
    ensures { PutsWithin 128 out.old (refused_line place number) out.new }
{
    put_refusal(out, place, number);
    out.put(b"\n");
}

// A space and the name of an atom, which has at most four bytes.
fn put_named(out: &mut Filled, atom: u8)
    requires { HasRoomFor out.old 25 }
    ensures { PutsWithin 5 out.old (ascii " " ++ name atom) out.new }
{
    out.put_byte(b' ');
    put_name(out, atom);
}

// `block P refused X`, and behind it the name of the atom.
fn put_naming(out: &mut Filled, place: u64, number: u8, atom: u8)
    requires { HasRoomFor out.old 128 }
    ensures { PutsWithin 128 out.old (naming_line place number atom) out.new }
{
    put_refusal(out, place, number);
    put_named(out, atom);
    out.put(b"\n");
}

// The line that a block has, whatever was found.
pub fn put_block_line(out: &mut Filled, place: u64, line: Line)
    requires { HasRoomFor out.old 128 }
    ensures { PutsWithin 128 out.old (block_line place line) out.new }
{
    match line {
        Line::Listed {
            balanced,
            of_constants,
            ..
        } => put_rows(out, place, balanced, of_constants),
        Line::Counted(unifiers) => put_unifiers(out, place, unifiers),
        Line::NoUnifier => put_none(out, place),
        Line::Refused { number, atom: None } => put_refused(out, place, number),
        Line::Refused {
            number,
            atom: Some(atom),
        } => put_naming(out, place, number, atom),
    }
}

// `more`, or `end N`.
fn put_page_end(out: &mut Filled, lines: u64, more: bool)
    requires { HasRoomFor out.old 128 }
    ensures { PutsWithin 128 out.old (page_end lines more) out.new }
{
    if more {
        out.put(b"more\n");
    } else {
        put_labelled(out, b"end ", lines);
        out.put(b"\n");
    }
}

// What stands after the page of a block that has one.
pub fn put_end_line(out: &mut Filled, line: Line)
    requires { HasRoomFor out.old 128 }
    ensures { PutsWithin 128 out.old (end_line line) out.new }
{
    if let Line::Listed { lines, more, .. } = line {
        put_page_end(out, lines, more);
    }
}

// `blocks B listed L none U refused F`.
fn put_counts(out: &mut Filled, counts: Totals)
    requires { HasRoomFor out.old 112 }
    ensures { PutsWithin 112 out.old (counts_line counts) out.new }
{
    put_labelled(out, b"blocks ", counts.blocks);
    put_labelled(out, b" listed ", counts.listed);
    put_labelled(out, b" none ", counts.none);
    put_labelled(out, b" refused ", counts.refused);
    out.put(b"\n");
}

// `total T`.
fn put_total(out: &mut Filled, total: u64)
    requires { HasRoomFor out.old 112 }
    ensures { PutsWithin 112 out.old (total_line total) out.new }
{
    put_labelled(out, b"total ", total);
    out.put(b"\n");
}

// The last line.
fn put_last(out: &mut Filled, last: LastLine)
    requires { HasRoomFor out.old 112 }
    ensures { PutsWithin 112 out.old (last_line last) out.new }
{
    match last {
        LastLine::NothingRead => out.put(b"nothing read\n"),
        LastLine::Counts(counts) => put_counts(out, counts),
        LastLine::Total(total) => put_total(out, total),
    }
}

// `too long`, where input remains.
fn put_too_long(out: &mut Filled, remains: bool)
    requires { HasRoomFor out.old 16 }
    ensures { PutsWithin 16 out.old (too_long remains) out.new }
{
    if remains {
        out.put(b"too long\n");
    }
}

// The lines at the end.
pub fn put_closing(out: &mut Filled, closing: Closing)
    requires { HasRoomFor out.old 128 }
    ensures { PutsWithin 128 out.old (closing_lines closing) out.new }
{
    put_too_long(out, closing.remains);
    put_last(out, closing.last);
}

// The line of a substitution, from the bytes of Values.
pub fn put_substitution_line(out: &mut Filled, values: &[u8])
    requires { HasRoomFor out.old (6 * length values.now + 32) }
    ensures put { (bs : List Binding) → laid_out bs ≡ values.now
        → Puts out.old (substitution_line bs) out.new }
    ensures at_most { PutsAtMost (6 * length values.now + 32) out.old out.new }
{
    put_substitution(out, values);
    out.put(b"\n");
}
