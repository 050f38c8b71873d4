//! Laws: calls that do little or nothing, whose contracts a proof may use after the call.
pub use redis_resp::{
    copied_write_error, equal_bytes, equal_parsing_errors, equal_write_errors, unique_decimal,
};
pub use redis_streams::laws::{
    equal_acknowledgements, equal_deletions, invalid_entries_tell_nil, other_keys_change_nothing,
    other_keys_change_nothing_in_full, overlap, respell_autoclaim, respell_claim, respell_range,
    respell_read,
};
pub use redis_wire::answers_are_read;
pub use redis_wire::laws::{
    commands_are_values, copied_fault, copied_group_kind, copied_limits, copied_pack_error,
    copied_wire_error, equal_faults, equal_limits, equal_pack_errors, equal_reply_errors,
    equal_server_errors, equal_wire_errors, few_bytes_have_few_values, replies_are_apart,
};
pub use stream_commands::laws::{
    ids_are_apart, unique_xadd, unique_xautoclaim, unique_xclaim, unique_xread, unique_xtrim,
};
pub use stream_option_parsing::laws::{equal_run_errors, equal_sentence_errors};
pub use stream_options::laws::{
    copied_maxlen, copied_nack_mode, copied_policy, equal_config_errors, equal_maxlens,
    equal_nack_modes, last_call_wins, setters_commute, unique_add, unique_autoclaim, unique_claim,
    unique_config, unique_idempotency, unique_maxlen, unique_mode, unique_nack, unique_policy,
    unique_read, unique_strategy, unique_trim,
};
