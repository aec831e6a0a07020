// Objects: bytes, faults, loading and patches.
mod damaged_tests;
mod inherit_tests;
mod load_tests;
mod object_tests;
mod patch_tables_tests;
