// Bytes and numbers, to standard output.
//
// What arrives there is told by no contract: the library's own functions, which these call, promise nothing of it.
#![tactic(auto)]

// Standard output.
// Stays: bytes are no `str`, and `print!` asks for the handle that `main` is given: each function up to `main` would take it and hand on a `Result`.
const STDOUT_FILENO: i32 = 1;

// Writes bytes.
pub fn write(bytes: &[u8]) {
    io::write_all(STDOUT_FILENO, bytes);
}

// Writes a number in decimal.
pub fn write_number(number: u32) {
    io::print_decimal(STDOUT_FILENO, u64::from(number));
}
