// Lines of numbers on standard output.

// The numbers, single-spaced.
pub(crate) fn line(numbers: &[usize]) {
    for i in 0..numbers.len() {
        if 0 < i {
            io::write_all(1, b" ");
        }
        io::print_decimal(1, numbers[i] as u64);
    }
    io::write_all(1, b"\n");
}
