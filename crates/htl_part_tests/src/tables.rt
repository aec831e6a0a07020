// Tables: their parts, form rules, functions and platforms.
mod accessors_tests;
mod base_tests;
mod copy_tests;
mod fcode_tests;
mod form_frame_tests;
mod form_rules_tests;
mod form_tests;
mod form_times_tests;
mod func_tests;
mod platform_cut_tests;
mod platform_file_tests;
mod table_rows;
mod tables_tests;
