// E code, its machine, listings and the compiler.
mod compiler_tests;
mod console_tests;
mod emach_tests;
mod espell_tests;
