//! Numbers and instructions in the lines of tables.

/// The number of a text in hexadecimal.
pub fn number_of(text: &str) -> u128 {
    let mut value: u128 = 0;
    for digit in text.bytes() {
        let digit = if digit <= b'9' {
            digit.wrapping_sub(b'0')
        } else {
            digit.wrapping_sub(b'a' - 10)
        };
        value = value.wrapping_mul(16).wrapping_add(u128::from(digit));
    }
    value
}

/// Puts the numbers of a text that are separated by blanks into `numbers`; says how many there are.
pub fn numbers_of(text: &str, numbers: &mut [u128]) -> usize {
    let mut count = 0;
    for word in text.split(' ') {
        if count < numbers.len() {
            numbers[count] = number_of(word);
            count += 1;
        }
    }
    count
}
