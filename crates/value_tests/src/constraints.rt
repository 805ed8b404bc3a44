use constraint::{Range, StringList, WordList};
use sane_fixed::Text;
use std::test::Fail;

#[test]
fn what_is_no_constraint(rt: HostRuntime) -> Result<(), Fail> {
    let alloc = rt.alloc();
    assert!(rt; Range::new(1, 0, 1).is_none() && Range::new(0, 1, -1).is_none());
    assert!(rt; WordList::new(Vec::new(alloc)).is_none());
    assert!(rt; WordList::new(vec![in alloc; 7; 1024]?).is_none());
    assert!(rt; StringList::new(Vec::new(alloc)).is_none());
    let most = WordList::new(vec![in alloc; 7; 1023]?).ok_or("a list")?;
    assert!(rt; most.try_clone(alloc)? == most);
    Ok(())
}

/// Least and greatest word and the step, a word that is asked for, and the nearest one.
const NEAREST: &[(i32, i32, i32, i32, i32)] = &[
    // The end itself is no step.
    (0, 10, 3, i32::MAX, 9),
    (0, 10, 3, 4, 3),
    (0, 10, 3, 5, 6),
    (-7, 5, i32::MAX, 5, -7),
    (i32::MIN, i32::MAX, 0, -1, -1),
    (i32::MIN, i32::MAX, i32::MAX, 0, -1),
    (i32::MIN, i32::MAX, i32::MAX, i32::MAX, i32::MAX - 1),
];

/// The words of a list, one that is asked for, and the nearest one.
const LISTED: &[(&[i32], i32, i32)] = &[
    // 125 is as far from 100 as from 150: the first listed is taken.
    (&[75, 100, 150, 300], 125, 100),
    (&[75, 100, 150, 300], 5000, 300),
    (&[75, 100, 150, 300], 150, 150),
    (&[1, 8, 16], 4, 1),
    (&[1, 8, 16], 12, 8),
    (&[i32::MIN, i32::MAX], 0, i32::MAX),
];

#[test]
fn nearest_words(rt: HostRuntime) -> Result<(), Fail> {
    for &(min, max, quant, asked, nearest) in NEAREST {
        let range = Range::new(min, max, quant).ok_or("a range")?;
        assert!(rt; range.nearest_word(asked) == (nearest, asked != nearest));
    }
    for &(words, asked, nearest) in LISTED {
        let list = WordList::new(words.to_vec(rt.alloc())?).ok_or("a list")?;
        assert!(rt; list.nearest_word(asked) == (nearest, asked != nearest));
    }
    Ok(())
}

/// A text, the entry that it is matched by, and whether that is another text.
const MATCHES: &[(&[u8], Option<(usize, bool)>)] = &[
    (b"col", Some((4, true))),
    (b"SANE", None),
    // An equal entry goes before those that begin with the text.
    (b"Gray", Some((1, false))),
    (b"gray", None),
    (b"GRAY1", Some((0, true))),
    (b"Graphs", None),
    (b"", None),
];

#[test]
fn matched_entries(rt: HostRuntime) -> Result<(), Fail> {
    let alloc = rt.alloc();
    let mut entries = Vec::new(alloc);
    for entry in [b"Gray16".as_slice(), b"Gray", b"Gray", b"Graph", b"Color"] {
        entries.push(Text::new(alloc, entry)?)?;
    }
    let list = StringList::new(entries).ok_or("a list")?;
    let copy = list.try_clone(alloc)?;
    for (text, entry) in MATCHES {
        assert!(rt; copy.match_string(text) == *entry);
    }
    Ok(())
}
