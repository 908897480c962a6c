//! Tests of the stores in SQLite files that stop at some call on a file, and of files of the earlier version, which are migrated.
#![tactic(auto)]

#[cfg(test)]
mod migration_tests;
#[cfg(test)]
mod stop_tests;
#[cfg(test)]
mod stopped_files;
