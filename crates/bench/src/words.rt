// What the bench says besides its replies. Where even that cannot be written, nothing more is to be done.

// To whoever starts it with an argument.
pub fn help(rt: &impl Print) {
    let _ = println!(rt; "usage: bench < lines\n");
    let _ = println!(rt;
        "Runs one group: a reply to each accepted line of standard input, and to refused ones too"
    );
    let _ = println!(rt;
        "where the very first line is all. The next is group N S, members and first set, and"
    );
    let _ = println!(rt; "every other a step and its operands, as send 0 5.");
    let _ = println!(rt; "docs/SPEC.md, 'The bench', has the whole language.");
}

pub fn unread(rt: &impl Eprint) {
    let _ = rt.eprintln("bench: standard input could not be read");
}

pub fn unwritten(rt: &impl Eprint) {
    let _ = rt.eprintln("bench: standard output could not be written");
}
