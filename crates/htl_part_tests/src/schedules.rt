// Jobs, schedules, slack and the S machine.
mod edf_frame_tests;
mod edf_plan_tests;
mod edf_rows;
mod edf_tests;
mod frame_tables;
mod greatest_frame_tests;
mod greatest_tests;
mod refine_tests;
mod smach_tests;
mod walk_jobs_tests;
mod walk_tests;
