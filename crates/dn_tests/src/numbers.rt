// The plain numbers that are found in front of bytes. Contracts say that what is found is right.

use dn_num::{marked_number, marks_of, number_front};

// Texts with a plain number in front, and the length of this number.
const FRONTS: [(&str, usize); 4] = [
    ("12 x", 2),
    ("-7\n", 2),
    ("007", 3),
    ("-9223372036854775808.", 20),
];

#[test]
fn numbers_in_front(rt: HostRuntime) {
    for (text, length) in &FRONTS {
        let used = number_front(text.as_bytes()).map(|front| front.used);
        assert!(rt; used == Some(*length), "in front of {text}");
    }
}

// Texts of at least 32 bytes with one to eight digits in front, and the length of this number.
const MARKED: [(&str, usize); 3] = [
    ("12345678 87654321 99999999\r\n....", 8),
    ("0070:...........................", 4),
    ("9/..............................", 1),
];

#[test]
fn marked_numbers(rt: HostRuntime) {
    for (text, length) in &MARKED {
        let bytes = text.as_bytes();
        if bytes.len() >= 32 {
            let used = marked_number(bytes, marks_of(bytes)).map(|marked| marked.used);
            assert!(rt; used == Some(*length), "in front of {text}");
        }
    }
}
