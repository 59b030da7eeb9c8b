//! Tests of the log over devices in memory and over a file: stated bytes, crashes and failures at each device call, changed bytes.
mod changed;
mod copies;
mod crashes;
mod files;
mod helpers;
mod stated;
