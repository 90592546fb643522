//! Files that are read and compared.
mod files;
mod same_runs;
