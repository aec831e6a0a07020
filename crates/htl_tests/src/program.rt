// The program and its adapters.
mod adapters_tests;
mod program_tests;
