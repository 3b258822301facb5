//! Captures, scripts, logs and lists, by readers and writers that fail or give little.

mod check_logs;
mod device_nonces;
mod events_records;
mod output_calls;
mod output_cases;
mod output_faults;
mod output_runs;
mod script_laws;
