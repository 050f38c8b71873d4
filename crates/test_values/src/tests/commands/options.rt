//! Written options and refused settings, compared with words and texts. The vectors of `streams_bench`
//! hold the expected argument lists.
mod config;
mod laws;
mod read;
mod sentence;
mod user;
mod variant;
