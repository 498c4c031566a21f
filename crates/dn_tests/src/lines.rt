// The plain lines that are read in blocks of rows. Contracts say that each row is right.

use dn_line::{Kind, RowBlock};

// Bytes that begin with plain lines of a letter and numbers, and the number of these lines.
const PLAIN: [(Kind, &str, usize); 12] = [
    (Kind::Sp, "a\t1  2 \t\r 3 \r\na 1 2 3\r\n", 2),
    (Kind::Sp, "a 1 2 -3\nz", 1),
    (Kind::Sp, "a 12345678 87654321 99999999\r\na 1 2 3\n", 2),
    (Kind::Sp, "a 12345678 123456789 99999999\na 1 2 3\n", 2),
    (
        Kind::Sp,
        "a 00000012 9223372036854775807 -9223372036854775808\na 1 2 3",
        1,
    ),
    (Kind::Max, "a 10 2 0\n", 1),
    (Kind::Min, "a 1 2 0 4 -1\na 1 2 0 4 1\n", 2),
    (
        Kind::Min,
        "a 1 2 3 45678 123456789\r\na 1 2 -1 4 1\nn 1 2\n",
        1,
    ),
    (Kind::Min, "n 3 -4\nn 1  2\na 1 2 0 4 1\n", 2),
    (Kind::Ss, "s 7\ns -8 \ns 9", 2),
    (Kind::P2p, "q 1 2\nq\t3 4\r\n", 2),
    (Kind::Co, "v 1 -2 3\nv 4 5 6\nc\nv 1 2 3\n", 2),
];

#[test]
fn plain_rows(rt: HostRuntime) {
    for (kind, text, count) in &PLAIN {
        let mut block = RowBlock::new();
        block.read(*kind, 16, text.as_bytes());
        assert!(rt; block.rows().len() == *count, "{text}");
    }
}
