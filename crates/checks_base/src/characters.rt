//! Characters, names and numbers at their corners.
use mt_chars::{
    RunOf, begins_line_end_at, begins_number_at, byte_at, front_escape_len, front_name_len,
    front_number_len, front_private_len, front_run_len, is_digit_byte,
};

#[test]
fn bytes_are_read_at_their_places(rt: HostRuntime) {
    assert!(rt; byte_at(b"a9:", 3) == 0 && is_digit_byte(byte_at(b"a9:", 1)));
}

#[test]
fn a_length_is_that_at_the_front(rt: HostRuntime) {
    assert!(rt; front_name_len("größe+".as_bytes()) == 7 && front_name_len(b"1a") == 0);
    assert!(rt; front_private_len(b"#\\u{61} ") == 7 && front_private_len(b"# a") == 0);
    assert!(rt; front_run_len(RunOf::Blanks, "\t\u{a0}\u{2028}a".as_bytes()) == 6);
    assert!(rt; front_run_len(RunOf::Flags, b"gi\\u0061") == 2);
    assert!(rt; begins_number_at(b".5") && front_number_len(b"1_0.5e-3n;") == 9);
    assert!(rt; begins_line_end_at(b"\r") && !begins_line_end_at("\u{2027}".as_bytes()));
    assert!(rt; front_escape_len(b"\r\n") == 2 && front_escape_len(b"\n\r") == 1);
}
