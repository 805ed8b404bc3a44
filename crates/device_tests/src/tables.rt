//! The option tables as a user sees them: a line for each option, with its name, title, kind, unit, size,
//! capabilities, constraint and default.

use device_api::Device;
use option_desc::{Constraint, Descriptor, Value, show_text};
use sane_fixed::{ByteOrder, Text};
use std::alloc::Global;
use std::process::Abort;
use testing::{dot, flatbed, hand_scanner, three_pass};

fn put(rt: &impl Abort, out: &mut String, text: &str) {
    out.push_str(text).expect(rt, "memory");
}

fn plain<'a>(rt: &impl Abort, text: &'a Text) -> &'a str {
    std::str::from_utf8(text.as_bytes()).expect(rt, "a text")
}

fn put_constraint(rt: &impl Abort, alloc: Global, out: &mut String, constraint: &Constraint) {
    match constraint {
        Constraint::Free => {}
        Constraint::Span(range) => {
            let (min, max, quant) = (range.min(), range.max(), range.quant());
            let text = format!(in alloc; " {min} to {max} by {quant}").expect(rt, "memory");
            put(rt, out, &text);
        }
        Constraint::Words(list) => {
            for word in list.as_slice() {
                let text = format!(in alloc; " {word}").expect(rt, "memory");
                put(rt, out, &text);
            }
        }
        Constraint::Strings(list) => {
            for text in list.as_slice() {
                put(rt, out, " ");
                put(rt, out, plain(rt, text));
            }
        }
    }
}

/// A table as `256 words`, any other value as its text.
fn put_value(rt: &impl Abort, alloc: Global, out: &mut String, desc: &Descriptor, value: &Value) {
    match value {
        Value::Words(words) => {
            let count = words.as_slice().len();
            let text = format!(in alloc; "{count} words").expect(rt, "memory");
            put(rt, out, &text);
        }
        _ => {
            let text = show_text(alloc, desc, value).expect(rt, "memory");
            put(rt, out, plain(rt, &text));
        }
    }
}

/// The lines of a scanner's options are these.
fn expect_table<D: Device>(rt: &impl Abort, alloc: Global, device: &D, want: &str) {
    let all = device.descriptors(alloc).expect(rt, "memory");
    let mut out = String::new(alloc);
    let mut n = 0u32;
    for desc in &all {
        let (name, title) = (plain(rt, &desc.name), plain(rt, &desc.title));
        assert!(rt; desc.about == desc.title);
        let (kind, unit, size, caps) = (desc.kind, desc.unit, desc.size, desc.caps.0);
        let front = format!(in alloc; "{name}|{title}|{kind:?} {unit:?} {size} {caps}|");
        put(rt, &mut out, &front.expect(rt, "memory"));
        put_constraint(rt, alloc, &mut out, &desc.constraint);
        put(rt, &mut out, "|");
        match device.get(alloc, n) {
            Ok(default) => put_value(rt, alloc, &mut out, desc, &default),
            Err(_) => put(rt, &mut out, "inactive"),
        }
        put(rt, &mut out, "\n");
        n = n.saturating_add(1);
    }
    assert!(rt; out.as_str() == want);
}

const FLATBED: &str = "|Number of options|Int None 4 4||15
mode|Scan mode|String None 6 5| Gray Color|Gray
depth|Bit depth|Int Bit 4 5| 1 8 16|8
resolution|Scan resolution|Int Dpi 4 5| 1 to 1200 by 1|50
tl-x|Top-left x|Fixed Mm 4 5| 0 to 13107200 by 65536|0
tl-y|Top-left y|Fixed Mm 4 5| 0 to 13107200 by 65536|0
br-x|Bottom-right x|Fixed Mm 4 5| 0 to 13107200 by 65536|80
br-y|Bottom-right y|Fixed Mm 4 5| 0 to 13107200 by 65536|100
gamma-table|Gamma table|Int None 1024 5| 0 to 255 by 1|256 words
ppl-loss|Lost pixels per line|Int Pixel 4 5| 0 to 64 by 1|0
read-limit-size|Read limit|Int None 4 5| 1 to 65536 by 1|65536
read-return-value|Read return value|String None 26 5| Default SANE_STATUS_UNSUPPORTED SANE_STATUS_CANCELLED SANE_STATUS_DEVICE_BUSY SANE_STATUS_INVAL SANE_STATUS_EOF SANE_STATUS_JAMMED SANE_STATUS_NO_DOCS SANE_STATUS_COVER_OPEN SANE_STATUS_IO_ERROR SANE_STATUS_NO_MEM SANE_STATUS_ACCESS_DENIED|Default
red-gamma-table|Red gamma table|Int None 1024 37| 0 to 255 by 1|inactive
green-gamma-table|Green gamma table|Int None 1024 37| 0 to 255 by 1|inactive
blue-gamma-table|Blue gamma table|Int None 1024 37| 0 to 255 by 1|inactive
";

const HAND: &str = "|Number of options|Int None 4 4||5
mode|Scan mode|String None 6 5| Gray Color|Gray
depth|Bit depth|Int Bit 4 5| 1 8|8
resolution|Scan resolution|Int Dpi 4 5| 75 100 150 300|75
hand-scanner|Hand scanner|Bool None 4 4||yes
";

const THREE_PASS: &str = "|Number of options|Int None 4 4||13
mode|Scan mode|String None 6 5| Gray Color|Gray
depth|Bit depth|Int Bit 4 5| 8 16|8
resolution|Scan resolution|Int Dpi 4 5| 1 to 1200 by 1|50
tl-x|Top-left x|Fixed Mm 4 5| 0 to 13107200 by 65536|0
tl-y|Top-left y|Fixed Mm 4 5| 0 to 13107200 by 65536|0
br-x|Bottom-right x|Fixed Mm 4 5| 0 to 13107200 by 65536|80
br-y|Bottom-right y|Fixed Mm 4 5| 0 to 13107200 by 65536|100
three-pass-order|Three-pass order|String None 4 37| RGB RBG GBR GRB BRG BGR|inactive
gamma-table|Gamma table|Int None 1024 5| 0 to 255 by 1|256 words
red-gamma-table|Red gamma table|Int None 1024 37| 0 to 255 by 1|inactive
green-gamma-table|Green gamma table|Int None 1024 37| 0 to 255 by 1|inactive
blue-gamma-table|Blue gamma table|Int None 1024 37| 0 to 255 by 1|inactive
";

#[test]
fn option_tables(rt: HostRuntime) {
    let (alloc, order) = (rt.alloc(), ByteOrder::Little);
    let page = dot(alloc, 0).expect(&rt, "a page");
    let flatbed = flatbed(alloc, b"flatbed:0", page, order).expect(&rt, "memory");
    expect_table(&rt, alloc, &flatbed, FLATBED);
    drop(flatbed);
    let page = dot(alloc, 0).expect(&rt, "a page");
    let hand = hand_scanner(alloc, b"hand:0", page, order).expect(&rt, "memory");
    expect_table(&rt, alloc, &hand, HAND);
    drop(hand);
    let page = dot(alloc, 0).expect(&rt, "a page");
    let three = three_pass(alloc, b"threepass:0", page, order).expect(&rt, "memory");
    expect_table(&rt, alloc, &three, THREE_PASS);
    drop(three);
}
