//! The plain loop beside which reading is timed.

/// The sum of all numbers of a text, without a look at what else is there.
pub(crate) fn add_up(text: &[u8]) -> i64 {
    let mut sum: i64 = 0;
    for line in text.split(|b| *b == b'\n') {
        for cell in line.split(|b| *b == b',') {
            sum = sum.wrapping_add(add_cell(cell));
        }
    }
    sum
}

fn add_cell(cell: &[u8]) -> i64 {
    let mut sum: i64 = 0;
    for part in cell.split(|b| *b == b' ') {
        sum = sum.wrapping_add(number(part));
    }
    sum
}

fn number(part: &[u8]) -> i64 {
    let mut value: i64 = 0;
    for byte in part {
        if byte.is_ascii_digit() {
            value = value.wrapping_mul(10).wrapping_add(i64::from(*byte - b'0'));
        }
    }
    if part.starts_with(b"-") {
        value.wrapping_neg()
    } else {
        value
    }
}
