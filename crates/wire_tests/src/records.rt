use sane_fixed::Status;
use std::test::Fail;
use wire_codec::*;

/// An empty record, one of two bytes, the end, and a byte behind that.
const RECORDS: [u8; 16] = [
    0, 0, 0, 0, 0, 0, 0, 2, 0xaa, 0xbb, 0xff, 0xff, 0xff, 0xff, 5, 9,
];

#[test]
fn records_in_pieces(rt: HostRuntime) -> Result<(), Fail> {
    let bytes = RECORDS;
    for length in [1, 2, 3, 5, 16] {
        let mut reader = RecordReader::new();
        let mut payload = Vec::new(rt.alloc());
        let mut end = None;
        let mut at: usize = 0;
        for _ in 0..64 {
            if at >= bytes.len() || end.is_some() {
                break;
            }
            let piece = &bytes[at..(at + length).min(bytes.len())];
            let (used, step) = reader.step(piece);
            match step {
                Step::More => {}
                Step::Bytes(from, to) => payload.extend_from_slice(&piece[from..to])?,
                Step::End(status) => end = Some(status),
            }
            at += used;
        }
        assert!(rt; payload.as_slice() == [0xaa, 0xbb].as_slice());
        assert!(rt; end == Some(5));
        assert!(rt; at == 15);
    }
    assert!(rt; record_head(2).as_slice() == [0, 0, 0, 2].as_slice());
    assert!(rt; record_end(Status::Eof).as_slice() == [0xff, 0xff, 0xff, 0xff, 5].as_slice());
    Ok(())
}
