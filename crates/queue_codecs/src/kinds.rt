//! The message types of the calls.

pub const OFFER_KIND: u32 = 0x03_01_00;

pub const SIZE_KIND: u32 = 0x03_03_00;

pub const POLL_KIND: u32 = 0x03_05_00;

pub const PEEK_KIND: u32 = 0x03_07_00;

pub const CLEAR_KIND: u32 = 0x03_0f_00;

pub const REMAINING_CAPACITY_KIND: u32 = 0x03_13_00;

pub const OFFER_WAIT_KIND: u32 = 0x03_80_00;

pub const POLL_WAIT_KIND: u32 = 0x03_81_00;
