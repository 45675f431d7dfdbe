//! The bytes of a connection, what is refused of them, and the lines of a script.

/// Sessions: authentication, ping, refusals, and what is served.
pub(crate) const SESSIONS: &[(&str, u8)] = &[
    ("put_then_get", 0),
    ("put_then_get_one_byte_a_line", 0),
    ("cut_anywhere", 0),
    ("ping_is_answered", 0),
    ("nothing_is_served_before_authentication", 0),
    ("another_cluster_name_is_not_accepted", 0),
    ("cluster_names_are_compared_whole", 0),
    ("another_cluster_name_leaves_the_session", 0),
    ("a_second_authentication_is_accepted", 0),
    ("a_null_client_is_accepted", 0),
    ("an_authentication_that_cannot_be_read", 0),
    ("an_authentication_has_further_parts", 0),
    ("an_authentication_in_fragments", 0),
    ("each_connection_authenticates", 0),
    ("refusals_of_one_session", 0),
    ("refusals_in_their_order", 0),
    ("types_of_no_request", 0),
    ("calls_that_cannot_be_read", 0),
    ("stated_partitions_are_compared", 0),
    ("correlations_come_back", 0),
    ("refused_messages_are_counted", 0),
    ("two_maps_and_two_clients", 0),
];

/// The bytes of a connection: frames, fragments, keys, and each fault that closes one.
pub(crate) const STREAMS: &[(&str, u8)] = &[
    ("a_chain_may_be_opened_again", 0),
    ("two_chains_alternate", 0),
    ("sixteen_chains_are_open", 0),
    ("length_of_6_is_a_frame", 0),
    ("further_bytes_and_frames_are_ignored", 0),
    ("several_messages_in_one_line", 0),
    ("bytes_of_two_connections_interleave", 0),
    ("fragmented_put_with_a_ping_between", 0),
    ("keys_without_a_stated_hash", 0),
    ("partitions_of_stated_hashes", 0),
    ("close_badfragment_begins_an_open_chain", 0),
    ("close_badfragment_continues_no_chain", 0),
    ("close_badfragment_ends_no_chain", 0),
    ("close_badfragment_ends_a_chain_twice", 0),
    ("close_badfragment_final_header", 0),
    ("close_badfragment_payload_of_7_bytes", 0),
    ("close_badfragment_payload_of_9_bytes", 0),
    ("close_openfragments", 0),
    ("close_manyframes", 0),
    ("close_manyframes_of_a_chain", 0),
    ("close_longmessage", 0),
    ("close_shortstart", 0),
    ("close_shortstart_of_a_message_of_two_frames", 0),
    ("close_shortstart_of_a_merged_message", 0),
    ("close_tooshort", 0),
    ("close_toolong", 0),
    ("close_toolong_as_an_unsigned_number", 0),
    ("close_after_each_message_before_it", 0),
    ("close_before_authentication", 0),
    ("close_prefix", 0),
    ("close_shows_at_the_fourth_length_byte", 0),
    ("a_closed_connection_is_not_opened_again", 0),
    ("a_frame_that_is_not_whole_at_the_end", 0),
];

/// The lines of a script, its ends and its longest lines.
pub(crate) const SCRIPTS: &[(&str, u8)] = &[
    // No line at all.
    ("empty_script_is_refused", 2),
    // The first line alone.
    ("a_script_without_end_is_refused", 2),
    ("a_last_line_without_a_newline_runs", 2),
    ("an_end_without_a_newline_ends", 0),
    ("nothing_after_the_end_is_looked_at", 0),
    ("a_second_open_does_nothing", 0),
    ("bytes_before_open_do_nothing", 0),
    ("numbers_at_their_ends", 0),
    ("hexadecimal_in_either_case", 0),
    ("comments_do_nothing", 0),
    ("trails_are_printed", 0),
    ("longest_line", 0),
    ("limit_line", 5),
    ("limit_line_before_another_cause", 5),
    // The first line can be too long too.
    ("limit_line_of_the_first_line", 5),
];

/// Bytes at fault: what closes a connection from its first message on, and what was served before.
pub(crate) const BAD_BYTES: &[(&str, u8)] = &[
    ("toolong", 0),
    ("toolong_by_bytes", 0),
    ("openfragments", 0),
    ("openfragments_by_bytes", 0),
    ("badfragment_open_chain", 0),
    ("badfragment_open_chain_by_bytes", 0),
    ("badfragment_final_header", 0),
    ("badfragment_final_header_by_bytes", 0),
    ("manyframes", 0),
    ("shortstart", 0),
    ("shortstart_by_bytes", 0),
    ("served_before_toolong", 0),
    ("served_before_badfragment", 0),
    ("served_before_shortstart", 0),
];
