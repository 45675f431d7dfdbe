//! Maps and queues: what each call answers and leaves.

/// Entries of maps: values, expiry, and what replaces a value.
pub(crate) const EXPIRY: &[(&str, u8)] = &[
    ("a_put_expires_at_its_moment", 0),
    ("an_expired_value_stands_until_a_call_meets_it", 0),
    ("each_call_takes_an_expired_value_away", 0),
    ("a_write_over_an_expired_value", 0),
    ("times_to_live_at_their_ends", 0),
    ("a_put_of_an_equal_value", 0),
    ("replacing_keeps_the_expiry", 0),
    ("values_are_compared_whole", 0),
    ("an_empty_value_is_a_value", 0),
    ("two_maps_with_one_key", 0),
    ("a_queue_named_as_a_map", 0),
];

/// Locks of keys: owners, counts and leases.
pub(crate) const LOCKS: &[(&str, u8)] = &[
    ("a_lock_without_a_value", 0),
    ("another_owners_unlock_is_refused", 0),
    ("a_lease_ends", 0),
    ("an_ended_lease_has_no_owner", 0),
    ("leases_at_their_ends", 0),
    ("a_lock_is_taken_again", 0),
    ("an_owner_is_a_client_and_a_thread", 0),
    ("a_client_numbered_as_a_connection", 0),
    ("a_lock_outlives_its_connection", 0),
    ("forced_unlocks_need_no_owner", 0),
    ("removing_keeps_the_lock", 0),
    ("each_write_needs_the_lock", 0),
    ("a_value_and_its_lock_end_in_one_call", 0),
    ("a_refused_write_takes_an_expired_value_away", 0),
];

/// Values with a max idle: which calls move its end.
pub(crate) const MAX_IDLE: &[(&str, u8)] = &[
    ("reads_move_the_idle_end", 0),
    ("which_calls_move_the_idle_end", 0),
    ("idle_ends_at_their_ends", 0),
    ("a_time_to_live_and_a_max_idle", 0),
    ("replacing_keeps_the_max_idle", 0),
    ("a_clock_that_goes_back_moves_the_idle_end", 0),
];

/// Queues: order, capacity and partition.
pub(crate) const QUEUES: &[(&str, u8)] = &[
    ("an_offer_past_the_capacity", 0),
    ("a_queue_without_a_place", 0),
    ("the_greatest_capacity", 0),
    ("items_come_out_in_their_order", 0),
    ("what_leaves_a_queue_is_not_counted", 0),
    ("one_queue_name_in_three_partitions", 0),
];

/// Entry processors: each form, and its edges.
pub(crate) const PROCESSORS: &[(&str, u8)] = &[
    ("adding_to_a_value", 0),
    ("adding_up_to_a_limit", 0),
    ("appending_to_a_value", 0),
    ("appending_up_to_a_million_bytes", 0),
    ("setting_what_is_greater", 0),
    ("a_processor_takes_a_value_away", 0),
    ("numbers_without_a_processor", 0),
    ("processors_and_expiry", 0),
];

/// Dumps of partitions, and clocks.
pub(crate) const DUMPS: &[(&str, u8)] = &[
    ("dumps_are_in_order", 0),
    ("dumps_without_objects", 0),
    ("a_dump_counts_changes", 0),
    ("clocks_at_their_ends", 0),
];

/// How each call on an object is read, refused and named.
pub(crate) const OBJECT_CALLS: &[(&str, u8)] = &[
    ("map_calls_that_cannot_be_read", 0),
    ("queue_calls_that_cannot_be_read", 0),
    ("each_map_call_states_its_partition", 0),
    ("further_parts_of_each_call", 0),
    ("refusals_and_answers_of_one_session", 0),
    ("calls_of_one_line", 0),
    ("a_history_names_each_call", 0),
    ("a_cart_a_stock_and_orders", 0),
];
