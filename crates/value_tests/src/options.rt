use constraint::{Range, StringList, WordList};
use option_desc::{Constraint, Descriptor, Value, Words, fits, put, read_text, show_text};
use sane_fixed::{Cap, Fixed, Kind, Status, Text, Unit};
use std::alloc::Global;

/// A length of 0 to 200 mm in steps of 1 mm is 0 to 13,107,200 by 65,536.
const MM: i32 = 65536;

/// What binds an option.
#[derive(Clone, Copy)]
enum Bound {
    Free,
    Span(i32, i32, i32),
    Words(&'static [i32]),
    Texts(&'static [&'static [u8]]),
}

/// An option's kind, size and constraint.
type Shape = (Kind, u32, Bound);

/// A value as the tables name it.
#[derive(Clone, Copy)]
enum Plain {
    Flag(bool),
    Int(i32),
    /// So many 65,536ths.
    Fixed(i32),
    Mm(i32),
    Words(&'static [i32]),
    Text(&'static [u8]),
}

/// A range binds no flag.
const FLAG: Shape = (Kind::Bool, 4, Bound::Span(5, 9, 1));

const NUMBER: Shape = (Kind::Int, 4, Bound::Free);

const DEPTH: Shape = (Kind::Int, 4, Bound::Words(&[1, 8, 16]));

const RESOLUTION: Shape = (Kind::Int, 4, Bound::Words(&[75, 100, 150, 300]));

const LENGTH: Shape = (Kind::Fixed, 4, Bound::Span(0, 200 * MM, MM));

/// A vector of three words.
const TABLE: Shape = (Kind::Int, 12, Bound::Span(0, 255, 1));

const MODE: Shape = (Kind::String, 6, Bound::Texts(&[b"Gray", b"Color"]));

/// Three bytes and a NUL.
const NOTE: Shape = (Kind::String, 4, Bound::Free);

fn text(alloc: Global, bytes: &[u8]) -> Option<Text> {
    Text::new(alloc, bytes).ok()
}

fn constraint(alloc: Global, bound: Bound) -> Option<Constraint> {
    Some(match bound {
        Bound::Free => Constraint::Free,
        Bound::Span(min, max, quant) => Constraint::Span(Range::new(min, max, quant)?),
        Bound::Words(words) => Constraint::Words(WordList::new(words.to_vec(alloc).ok()?)?),
        Bound::Texts(entries) => {
            let mut texts = Vec::new(alloc);
            for entry in entries {
                texts.push(text(alloc, entry)?).ok()?;
            }
            Constraint::Strings(StringList::new(texts)?)
        }
    })
}

fn option(alloc: Global, (kind, size, bound): Shape) -> Option<Descriptor> {
    Some(Descriptor {
        name: text(alloc, b"name")?,
        title: text(alloc, b"Title")?,
        about: text(alloc, b"About")?,
        kind,
        unit: Unit::None,
        size,
        caps: Cap(Cap::SOFT_SELECT | Cap::SOFT_DETECT),
        constraint: constraint(alloc, bound)?,
    })
}

fn value(alloc: Global, plain: Plain) -> Option<Value> {
    Some(match plain {
        Plain::Flag(flag) => Value::Flag(flag),
        Plain::Int(word) => Value::Int(word),
        Plain::Fixed(word) => Value::Fixed(Fixed(word)),
        Plain::Mm(mm) => Value::Fixed(Fixed(mm.saturating_mul(MM))),
        Plain::Words(words) => Value::Words(Words::from_vec(words.to_vec(alloc).ok()?)),
        Plain::Text(bytes) => Value::Text(text(alloc, bytes)?),
    })
}

/// An option, a value that fits it, the one that is put for it, and whether they differ.
const PUT: &[(Shape, Plain, Plain, bool)] = &[
    (LENGTH, Plain::Fixed(0x508000), Plain::Mm(81), true),
    (LENGTH, Plain::Mm(250), Plain::Mm(200), true),
    (LENGTH, Plain::Mm(80), Plain::Mm(80), false),
    // 0.6 mm is nearest to 1 mm.
    (LENGTH, Plain::Fixed(39322), Plain::Mm(1), true),
    // 125 is as far from 100 as from 150: the first listed is taken.
    (RESOLUTION, Plain::Int(125), Plain::Int(100), true),
    (RESOLUTION, Plain::Int(5000), Plain::Int(300), true),
    (RESOLUTION, Plain::Int(150), Plain::Int(150), false),
    (DEPTH, Plain::Int(4), Plain::Int(1), true),
    (DEPTH, Plain::Int(12), Plain::Int(8), true),
    (MODE, Plain::Text(b"gr"), Plain::Text(b"Gray"), true),
    (NOTE, Plain::Text(b"abc"), Plain::Text(b"abc"), false),
    (TABLE, Plain::Words(HIGH), Plain::Words(CUT), true),
    (FLAG, Plain::Flag(false), Plain::Flag(false), false),
];

/// Words of a table, and what is put for them.
const HIGH: &[i32] = &[7, 300, 255];

const CUT: &[i32] = &[7, 255, 255];

/// An option, a value that is refused, and whether it fits.
const REFUSED: &[(Shape, Plain, bool)] = &[
    // A list of texts has room for any text.
    (MODE, Plain::Text(b"SANE"), true),
    (MODE, Plain::Text(b"SANE SANE"), true),
    (NOTE, Plain::Text(b"abcd"), false),
    (TABLE, Plain::Words(&[7, 7]), false),
    (NUMBER, Plain::Words(&[7]), false),
    (NUMBER, Plain::Fixed(0), false),
    (FLAG, Plain::Int(1), false),
    ((Kind::Button, 0, Bound::Free), Plain::Flag(false), false),
];

/// Whether a value fits an option, and what is put for it.
fn answer(
    alloc: Global,
    shape: Shape,
    asked: Plain,
) -> Option<(bool, Result<(Value, bool), Status>)> {
    let asked = value(alloc, asked)?;
    let desc = option(alloc, shape)?;
    let answer = (fits(&desc, &asked), put(alloc, &desc, &asked));
    drop(asked);
    drop(desc);
    Some(answer)
}

#[test]
fn values_that_are_put(rt: HostRuntime) {
    for &(shape, asked, given, differs) in PUT {
        let given = value(rt.alloc(), given).expect(&rt, "a value");
        let answer = answer(rt.alloc(), shape, asked).expect(&rt, "memory");
        assert!(rt; answer == (true, Ok((given, differs))));
    }
    for &(shape, asked, does_fit) in REFUSED {
        let answer = answer(rt.alloc(), shape, asked).expect(&rt, "memory");
        assert!(rt; answer == (does_fit, Err(Status::Inval)));
    }
}

/// An option, a text, the value that it is read as, and the text that shows that.
const READ: &[(Shape, &[u8], Plain, &[u8])] = &[
    (FLAG, b"yes", Plain::Flag(true), b"yes"),
    (FLAG, b"no", Plain::Flag(false), b"no"),
    (NUMBER, b"-2147483648", Plain::Int(i32::MIN), b"-2147483648"),
    (NUMBER, b"2147483647", Plain::Int(i32::MAX), b"2147483647"),
    (NUMBER, b"0000000007", Plain::Int(7), b"7"),
    (LENGTH, b"80.5", Plain::Fixed(0x508000), b"80.5"),
    (LENGTH, b"0.6", Plain::Fixed(39322), b"0.600006103515625"),
    (TABLE, b"7,300,255", Plain::Words(HIGH), b"7,300,255"),
    // How many words there are is a matter of what fits.
    (TABLE, b"-1,2", Plain::Words(&[-1, 2]), b"-1,2"),
    (MODE, b"gr", Plain::Text(b"gr"), b"gr"),
];

/// An option, and a text that does not read.
const UNREAD: &[(Shape, &[u8])] = &[
    (FLAG, b"Yes"),
    (NUMBER, b"2147483648"),
    (NUMBER, b"00000000007"),
    (NUMBER, b"-"),
    (NUMBER, b"+1"),
    (NUMBER, b"1,2"),
    (TABLE, b"1,,3"),
    (TABLE, b"1,2,"),
    (TABLE, b"1, 2"),
    (MODE, b"a\0b"),
    ((Kind::Group, 0, Bound::Free), b"yes"),
];

#[test]
fn values_as_texts(rt: HostRuntime) {
    let alloc = rt.alloc();
    for &(shape, text, plain, shown) in READ {
        let desc = option(alloc, shape).expect(&rt, "an option");
        let read = read_text(alloc, &desc, text).expect(&rt, "a value");
        assert!(rt; value(alloc, plain).expect(&rt, "a value") == read);
        let told = show_text(alloc, &desc, &read).expect(&rt, "a text");
        assert!(rt; told.as_bytes() == shown);
        drop(read);
        drop(desc);
    }
    for &(shape, text) in UNREAD {
        let desc = option(alloc, shape).expect(&rt, "an option");
        assert!(rt; read_text(alloc, &desc, text).err() == Some(Status::Inval));
        drop(desc);
    }
}

/// Whether the fields of a copy are those of an option with a list of texts.
fn is_copy(copy: &Descriptor, desc: &Descriptor) -> bool {
    let are_texts = copy.name == desc.name && copy.title == desc.title && copy.about == desc.about;
    let are_words = (copy.kind, copy.size, copy.caps.0) == (desc.kind, desc.size, desc.caps.0);
    let is_bound = match (&copy.constraint, &desc.constraint) {
        (Constraint::Strings(copied), Constraint::Strings(list)) => {
            copied.as_slice() == list.as_slice()
        }
        _ => false,
    };
    are_texts && are_words && is_bound
}

#[test]
fn copies(rt: HostRuntime) {
    let desc = option(rt.alloc(), MODE).expect(&rt, "an option");
    let copy = desc.try_clone(rt.alloc()).expect(&rt, "memory");
    assert!(rt; is_copy(&copy, &desc));
    drop(copy);
    drop(desc);
    for plain in [Plain::Words(&[7, -7]), Plain::Text(b"Gray")] {
        let value = value(rt.alloc(), plain).expect(&rt, "a value");
        let copy = value.try_clone(rt.alloc()).expect(&rt, "memory");
        assert!(rt; copy == value);
        drop(copy);
        drop(value);
    }
}
