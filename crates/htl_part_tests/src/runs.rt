// The machine, events and streams.
mod audit_tests;
mod edge_tests;
mod events_tests;
mod machine_tests;
