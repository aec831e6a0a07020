// Text, names and their limits.
mod limits_tests;
mod names_tests;
mod parse_tests;
mod text_tests;
