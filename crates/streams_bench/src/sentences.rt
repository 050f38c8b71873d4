//! The parsers of options, and of lines of them.
pub use stream_option_parsing::{
    RunError, SentenceError, read_add, read_autoclaim, read_claim, read_config, read_nack,
    read_read, read_trim, run,
};
