//! The message types of the calls.

pub const PUT_KIND: u32 = 0x01_01_00;

pub const GET_KIND: u32 = 0x01_02_00;

pub const REMOVE_KIND: u32 = 0x01_03_00;

pub const REPLACE_KIND: u32 = 0x01_04_00;

pub const REPLACE_IF_SAME_KIND: u32 = 0x01_05_00;

pub const CONTAINS_KEY_KIND: u32 = 0x01_06_00;

pub const REMOVE_IF_SAME_KIND: u32 = 0x01_08_00;

pub const DELETE_KIND: u32 = 0x01_09_00;

pub const PUT_IF_ABSENT_KIND: u32 = 0x01_0e_00;

pub const SET_KIND: u32 = 0x01_0f_00;

pub const TRY_LOCK_KIND: u32 = 0x01_11_00;

pub const IS_LOCKED_KIND: u32 = 0x01_12_00;

pub const UNLOCK_KIND: u32 = 0x01_13_00;

pub const EXECUTE_ON_KEY_KIND: u32 = 0x01_2e_00;

pub const FORCE_UNLOCK_KIND: u32 = 0x01_33_00;

pub const PUT_MAX_IDLE_KIND: u32 = 0x01_60_00;

pub const SET_MAX_IDLE_KIND: u32 = 0x01_61_00;

pub const LOCK_WAIT_KIND: u32 = 0x01_80_00;

pub const PUT_WAIT_KIND: u32 = 0x01_81_00;
