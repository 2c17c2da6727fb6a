//! Where the outcome of a run differs from what is wanted.

use case_tools::Output;

fn is_line_feed(byte: &u8) -> bool {
    *byte == b'\n'
}

/// Appends a line of a text, or that there is none.
fn append_line(which: &str, line: Option<&[u8]>, out: &mut Output) {
    out.text(which);
    match line {
        Some(line) => {
            out.text("'");
            out.append(line);
            out.text("'\n")
        }
        None => out.text("no line\n"),
    }
}

/// Appends the first line in which two texts differ, by its number from 0.
pub fn append_difference(wanted: &[u8], got: &[u8], out: &mut Output) {
    let mut wanted_lines = wanted.split(is_line_feed);
    let mut got_lines = got.split(is_line_feed);
    for number in 0..u64::MAX {
        let wanted = wanted_lines.next();
        let got = got_lines.next();
        if wanted != got {
            out.text("  at line ");
            out.number(number);
            append_line(", wanted ", wanted, out);
            append_line("  got ", got, out);
            break;
        }
        if wanted.is_none() {
            break;
        }
    }
}
