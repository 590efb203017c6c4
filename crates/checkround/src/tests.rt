// Files that are refused, through the library; the gate runs the program on one that is taken.
use board::board::round::open;
use board::setup::Setup;
use chain::Chain;
use elgamal::Ciphertext;
use group::{Exponent, Group};
use modular::modulo23::RESIDUES_MODULO_23;
use roundcheck::file::check_file;
use roundcheck::records::run_round;
use roundcheck::report::Line;
use roundcheck::round::{read_key, repeated};
use roundcheck::wanted::{next_draws, next_opening, words_of};
use roundfile::reader::Reader;
use source::Tape;
use std::alloc::Global;
use std::test::Fail;

// The mark, an opening in group 1 with the key 8, four words in each draws, two posts and the close.
const TWO_QUOTES: [u8; 118] = [
    77, 73, 88, 82, 1, 0, 21, 0, 0, 0, 1, 0, 0, 0, 2, 0, 0, 0, 8, 2, 0, 1, 0, 0, 0, 4, 0, 0, 0, 0,
    0, 0, 0, 9, 0, 0, 0, 0, 0, 0, 0, 13, 0, 0, 0, 0, 0, 0, 0, 12, 0, 0, 0, 0, 0, 0, 0, 14, 2, 0, 1,
    0, 0, 0, 4, 0, 0, 0, 0, 0, 0, 0, 4, 0, 0, 0, 0, 0, 0, 0, 0, 0, 0, 0, 0, 0, 0, 0, 0, 0, 0, 0, 0,
    0, 0, 0, 0, 3, 0, 3, 0, 0, 0, 18, 0, 0, 0, 9, 3, 0, 2, 0, 0, 0, 2, 5, 0, 0,
];

// Their comparator with the product response 1, where 0 is the right one.
const WRONG_RESPONSE: [u8; 51] = [
    4, 15, 255, 0, 0, 0, 18, 0, 0, 0, 8, 0, 0, 0, 13, 0, 0, 0, 6, 0, 0, 0, 12, 0, 0, 0, 1, 0, 0, 0,
    8, 0, 0, 0, 18, 0, 0, 0, 3, 0, 0, 0, 5, 0, 0, 0, 2, 0, 0, 0, 5,
];

// The mark and the front of an opening in group 1: what follows are the wires and the key.
const OPENING: [u8; 11] = [77, 73, 88, 82, 1, 0, 21, 0, 0, 0, 1];

fn text_of(rt: &HostRuntime, front: &[u8], back: &[u8]) -> Result<String, Fail> {
    let mut file = front.to_vec(rt.alloc())?;
    file.extend_from_slice(back)?;
    let report = check_file(rt.alloc(), file.as_slice())?;
    Ok(report.text(rt.alloc())?)
}

#[test]
fn a_wrong_response_is_refused(rt: HostRuntime) -> Result<(), Fail> {
    let text = text_of(&rt, &TWO_QUOTES, &WRONG_RESPONSE)?;
    assert_eq!(rt;
        text.as_str(),
        "round 1 1 2 1\npost 0 18 9\npost 1 1 2\nclose\nrefused 18 proof 118\n"
    );
    Ok(())
}

#[test]
fn a_round_that_goes_on_is_open(rt: HostRuntime) -> Result<(), Fail> {
    let text = text_of(&rt, &TWO_QUOTES, &[])?;
    assert_eq!(rt;
        text.as_str(),
        "round 1 1 2 1\npost 0 18 9\npost 1 1 2\nclose\nopen 0 1\n"
    );
    Ok(())
}

// The same records, run on a board of its own behind a line that stood before. Over any group: the borrow checker does not
// cover a board of elements that have ghost fields.
fn run_text<G: Group>(heap: Global, group: &G) -> Result<String, Fail>
where
    G::Exponent: Exponent<Posted = u32>,
{
    let plan = Chain::new(2)?;
    let mut reader = Reader::new(&TWO_QUOTES)?;
    let (offset, opening) = next_opening(&mut reader)?;
    // no step is run, so that the words of the first draws serve
    let words = words_of(heap, next_draws(&mut reader)?)?;
    let _ = next_draws(&mut reader)?;
    let source = Tape {
        words: words.as_slice(),
    };
    let setup = Setup {
        group,
        plan: &plan,
        source: &source,
    };
    let key = read_key(group, opening, offset)?;
    let one = group.one();
    let item = Ciphertext {
        alpha: one,
        beta: one,
    };
    let mut wires = repeated(heap, item, 2)?;
    let mut start = repeated(heap, item, 2)?;
    let mut board = open(
        group,
        &plan,
        key,
        1,
        wires.as_mut_slice(),
        start.as_mut_slice(),
    )?;
    let mut lines = Vec::new(heap);
    lines.push(Line::Expel(7))?;
    let report = run_round(heap, &mut board, &setup, reader, lines)?;
    Ok(report.text(heap)?)
}

#[test]
fn a_run_is_reported_behind_the_lines_before(rt: HostRuntime) -> Result<(), Fail> {
    let text = run_text(rt.alloc(), &RESIDUES_MODULO_23)?;
    assert_eq!(rt;
        text.as_str(),
        "expel 7\npost 0 18 9\npost 1 1 2\nclose\nopen 0 1\n"
    );
    Ok(())
}

#[test]
fn sixty_five_wires_are_refused(rt: HostRuntime) -> Result<(), Fail> {
    let text = text_of(&rt, &OPENING, &[0, 0, 0, 65, 0, 0, 0, 8])?;
    assert_eq!(rt; text.as_str(), "refused 7 opening 4\n");
    Ok(())
}

#[test]
fn sixty_four_wires_are_opened(rt: HostRuntime) -> Result<(), Fail> {
    let text = text_of(&rt, &OPENING, &[0, 0, 0, 64, 0, 0, 0, 8])?;
    assert_eq!(rt; text.as_str(), "round 1 1 64 1\nrefused 5 file 19\n");
    Ok(())
}
