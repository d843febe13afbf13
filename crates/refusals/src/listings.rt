// Listings, under a book that has no instruction of its own: each fault at least once, and some that are taken.
use crate::answer::print_answer;
use book::Book;
use listing::assemble_into;
use store::Owned;

const REFUSED: [&[u8]; 16] = [
    b"# a comment\n0 word 0000",
    b"1 word 0000\n",
    b"65536 word 0000\n",
    b"00 word 0000\n",
    b"\n8 halfwords 1 2\n10 word 0000\n",
    b"65534 halfwords 1 2\n",
    b"0\n",
    b"0 halfwords # 1\n",
    b"0 HRK L 0 0 0\n",
    b"0 word 00000\n",
    b"0 halfwords -32769\n",
    b"0 HRK L - 0\n",
    b"0 HALT L 0 0\n",
    b"0 HRK C 0 0\n",
    b"0 LD A1 0 0\n",
    b"0 BITL L 0 256\n",
];

// Listings that are taken, two of which place nothing.
const ACCEPTED: [&[u8]; 3] = [
    b"",
    b"  # nothing\n\n",
    b"0 HRK L 0 0 # then\n  2   halfwords -1 65535 -32768   0\n65534 word aBcD\n",
];

fn print_listing(rt: &HostRuntime, text: &[u8]) -> anyhow::Result<()> {
    let mut store = Owned::new(vec![in rt.alloc(); 0u8; 65536]?);
    let answer = assemble_into(&Book::new(), text, &mut store);
    print_answer(rt, "assembled", answer)?;
    Ok(())
}

pub fn print_listings(rt: &HostRuntime) -> anyhow::Result<()> {
    for text in REFUSED.iter().chain(&ACCEPTED) {
        print_listing(rt, text)?;
    }
    Ok(())
}
