//! Logs, quotes, event data, and what logs tell of Secure Boot.

mod event_data_contents;
mod event_data_device_paths;
mod event_data_device_securities;
mod event_data_measured;
mod event_data_parts;
mod event_data_signatures;
mod log_parsed;
mod log_pieces;
mod log_sources;
mod quote_attests;
mod quote_quotes;
mod rows;
mod secure_boot_verdicts;
mod vouched_records;
