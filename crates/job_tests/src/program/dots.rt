//! The program of `make demo`, run to its end.

use worked_programs::scan_dot;

/// Its clause says that the file came, where the exit status is 0; with memory enough it is.
#[test]
fn a_dot_that_is_printed(rt: HostRuntime) {
    let printed = scan_dot(rt.alloc()).expect(&rt, "words");
    let whole = b"P5\n# SANE data follows\n1 1\n255\n\x0a";
    assert!(&rt; printed.out.as_slice() == whole.as_slice());
    assert!(&rt; printed.err.is_empty());
    let status = printed.status;
    let shown = format!(in rt.alloc(); "{status:?}").expect(&rt, "memory");
    assert!(&rt; shown.as_str() == "ExitCode(unix_exit_status(0))");
}
