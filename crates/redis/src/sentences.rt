//! For a server, a proxy or a log tool: parses the arguments of options back into settings, and lines
//! of such arguments.
pub use stream_option_parsing::{
    AddParts, AutoClaimParts, ClaimParts, GroupNames, ReadParts, RunError, SentenceError,
    TrimParts, add_with, autoclaim_with, claim_with, read_add, read_add_parts, read_autoclaim,
    read_autoclaim_parts, read_claim, read_claim_parts, read_config, read_nack, read_read,
    read_read_parts, read_trim, read_trim_parts, read_with, run, trim_with,
};
